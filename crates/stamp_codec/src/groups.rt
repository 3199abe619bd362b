//! The swaps in each group of 12 bytes.
ghost use Rattle.std.specs.Prelude.{◌≡◌, length};
ghost use Rattle.stamp_codec.specs.Spelling.{swapped};

/// How many bytes a group has.
pub(crate) const GROUP: usize = 12;

/// Swaps places in each whole group of 12 bytes. Twice gives the bytes back.
pub(crate) fn swap_groups(bytes: &mut [u8])
    ensures { bytes.new ≡ swapped bytes.old }
{
    for group in 0..bytes.len() / GROUP {
        let start = GROUP * group;
        swap_group(&mut bytes[start..start + GROUP]);
    }
}

/// Swaps the places 0 and 11, 2 and 9, and 4 and 7.
fn swap_group(group: &mut [u8])
    requires { length group.old ≡ 12 }
    ensures { group.new ≡ swapped group.old }
{
    group.swap(0, 11);
    group.swap(2, 9);
    group.swap(4, 7);
}
