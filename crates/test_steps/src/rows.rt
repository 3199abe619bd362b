//! The first row of a table that goes otherwise.

/// The place of the first row at which the condition doesn't hold, as an `Option<usize>`, or `None`:
/// `first_wrong!(ROWS, |row| is_read(alloc, row)?)`. The rows are a slice, each is bound by reference to the pattern,
/// and the condition is evaluated in the function that the call stands in, so that a `?` returns from there.
#[macro_export]
macro_rules! first_wrong {
    ($rows:expr, |$row:pat_param| $holds:expr) => {{
        let mut wrong = None;
        for (place, $row) in $rows.iter().enumerate() {
            if !$holds {
                wrong = Some(place);
                break;
            }
        }
        wrong
    }};
}

/// The least number of a range at which the condition doesn't hold, or `None`:
/// `least_wrong!(0..=text.len(), |cut| is_told(text, cut))`.
#[macro_export]
macro_rules! least_wrong {
    ($range:expr, |$number:ident| $holds:expr) => {{
        let mut wrong = None;
        for $number in $range {
            if !$holds {
                wrong = Some($number);
                break;
            }
        }
        wrong
    }};
}

/// Asserts that the condition holds at each row; where it doesn't, the place of the first such row is told.
/// `assert_rows!(rt; ROWS, |row| is_read(rt.alloc(), row)?)`, with rows and condition as `first_wrong` has them.
#[macro_export]
macro_rules! assert_rows {
    ($rt:expr; $rows:expr, |$row:pat_param| $holds:expr) => {
        assert_eq!($rt; $crate::first_wrong!($rows, |$row| $holds), None)
    };
}
