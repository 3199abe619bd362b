//! Stamped links: a game, and greetings.

use std::test::Fail;
use test_server_steps::talk::{Comes, Row, STAMPED_GAME, first_failing};

#[test]
fn a_game_over_a_stamped_link(rt: HostRuntime) -> Result<(), Fail> {
    assert_eq!(rt; first_failing(rt.alloc(), STAMPED_GAME)?, None);
    Ok(())
}

const A_LATE_GREETING_IS_A_NAME_ROWS: &[Row] = &[
    Row(1, 0, Comes::Ack(1), b""),
    Row(
        1,
        0,
        Comes::Stamped(b"TIMESTAMP|a|", 2),
        b"refused 22 BadHandle\n\rlogin: ",
    ),
    Row(
        2,
        0,
        Comes::Line(b"TIMESTAMP|a|"),
        b"refused 22 BadHandle\n\rlogin: ",
    ),
    Row(
        2,
        0,
        Comes::Stamped(b"Ben", 3),
        b"Entered as Ben.\n\rfics% ",
    ),
];

/// A greeting behind another line is a line as any other.
#[test]
fn a_late_greeting_is_a_name(rt: HostRuntime) -> Result<(), Fail> {
    assert_eq!(rt;
        first_failing(rt.alloc(), A_LATE_GREETING_IS_A_NAME_ROWS)?,
        None
    );
    Ok(())
}
