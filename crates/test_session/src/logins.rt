//! Logins: what is written for each line, until a session has entered and when it quits.

use std::test::Fail;
use test_server_steps::talk::{Comes, Row, first_failing};

const A_HANDLE_IS_REGISTERED_AND_ITS_PASSWORD_ASKED_FOR_ROWS: &[Row] = &[
    Row(1, 0, Comes::Line(b"zz"), b"refused 22 BadHandle\n\rlogin: "),
    Row(1, 0, Comes::Line(b"Ann"), b"Entered as Ann.\n\rfics% "),
    Row(1, 0, Comes::Line(b"register abc"), b"Ok.\n\rfics% "),
    Row(1, 0, Comes::Line(b"quit"), b"Goodbye.\n\r"),
    Row(2, 0, Comes::Line(b"ann"), b"password: "),
    Row(
        2,
        0,
        Comes::Line(b"abd"),
        b"refused 23 WrongPassword\n\rlogin: ",
    ),
    Row(2, 0, Comes::Line(b"Ann"), b"password: "),
    Row(2, 0, Comes::Line(b"abc"), b"Entered as Ann.\n\rfics% "),
];

#[test]
fn a_handle_is_registered_and_its_password_asked_for(rt: HostRuntime) -> Result<(), Fail> {
    assert_eq!(rt;
        first_failing(
            rt.alloc(),
            A_HANDLE_IS_REGISTERED_AND_ITS_PASSWORD_ASKED_FOR_ROWS
        )?,
        None
    );
    Ok(())
}

const LINES_OF_A_LOGIN_ARE_ANSWERED_ROWS: &[Row] = &[
    Row(1, 0, Comes::Quiet, b""),
    Row(1, 0, Comes::Ack(5), b""),
    Row(1, 0, Comes::Line(b""), b"login: "),
    Row(
        1,
        0,
        Comes::Line(b" Ann"),
        b"refused 22 BadHandle\n\rlogin: ",
    ),
    Row(1, 0, Comes::TooLong, b"refused 29 TooLong\n\rlogin: "),
    Row(1, 0, Comes::BadByte, b"refused 56 BadByte\n\rlogin: "),
    Row(
        1,
        0,
        Comes::Line(b"GUEST"),
        b"Entered as GuestAAAA.\n\rfics% ",
    ),
    Row(
        2,
        0,
        Comes::Line(b"guestaaaa"),
        b"refused 24 HandleTaken\n\rlogin: ",
    ),
    Row(
        2,
        0,
        Comes::Line(b"guest"),
        b"Entered as GuestAAAB.\n\rfics% ",
    ),
    Row(1, 0, Comes::TooLong, b"refused 29 TooLong\n\rfics% "),
    Row(1, 0, Comes::BadByte, b"refused 56 BadByte\n\rfics% "),
    Row(1, 0, Comes::Line(b"zz"), b"refused 26 Unknown\n\rfics% "),
    Row(
        1,
        0,
        Comes::Line(b" FLAG "),
        b"refused 20 NotPlaying\n\rfics% ",
    ),
    Row(1, 0, Comes::Line(b"e4"), b"refused 20 NotPlaying\n\rfics% "),
    Row(
        1,
        0,
        Comes::Line(b"accept"),
        b"refused 34 NoChallenge\n\rfics% ",
    ),
    Row(1, 0, Comes::Line(b""), b"fics% "),
    Row(1, 0, Comes::Quiet, b""),
    Row(1, 0, Comes::Ack(5), b""),
    Row(1, 0, Comes::Line(b"quit"), b"Goodbye.\n\r"),
    Row(1, 0, Comes::Line(b"quit"), b""),
];

#[test]
fn lines_of_a_login_are_answered(rt: HostRuntime) -> Result<(), Fail> {
    assert_eq!(rt;
        first_failing(rt.alloc(), LINES_OF_A_LOGIN_ARE_ANSWERED_ROWS)?,
        None
    );
    Ok(())
}
