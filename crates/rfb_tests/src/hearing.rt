//! What a viewer says, byte by byte.

use gui_base::Key;
use rfb_view::messages::message_of;
use rfb_view::{Hearing, Message, RfbBad};
use run_defs::Command;
use std::test::Fail;

#[test]
fn a_message_is_heard_byte_by_byte(rt: HostRuntime) -> Result<(), Fail> {
    let mut hearing = Hearing::new();
    assert!(rt; !hearing.push(5, 3));
    assert!(rt; !hearing.push(1, 3));
    assert!(rt; !hearing.push(0, 3));
    assert!(rt; !hearing.push(7, 3));
    assert!(rt; !hearing.push(0x10, 3));
    assert!(rt; hearing.push(0, 3));
    // The pointer is brought to at most 4,000.
    assert!(rt;
        matches!(
            hearing.message(),
            Message::Inputs(Some(Command::Touch(7, 4000)))
        )
    );
    Ok(())
}

#[test]
fn messages_say_what_they_mean(rt: HostRuntime) -> Result<(), Fail> {
    let enter = [4, 1, 0, 0, 0, 0, 0xFF, 0x0D];
    assert!(rt;
        matches!(
            message_of(&enter),
            Message::Inputs(Some(Command::Key(Key::Enter, true)))
        )
    );
    let other = [4, 1, 0, 0, 0, 1, 0xFF, 0x0D];
    assert!(rt; matches!(message_of(&other), Message::Inputs(None)));
    let up = [5, 2, 0, 0, 0, 0];
    assert!(rt; matches!(message_of(&up), Message::Inputs(Some(Command::Release))));
    let cut_text = [6, 0, 0, 0, 0, 0, 0, 0];
    assert!(rt; matches!(message_of(&cut_text), Message::Passes));
    assert!(rt; matches!(message_of(&[7]), Message::Errs(RfbBad::Message)));
    let mut format = [0, 0, 0, 0, 8, 8, 0, 1, 0, 7, 0, 7, 0, 3, 5, 2, 0, 0, 0, 0];
    assert!(rt; matches!(message_of(&format), Message::Wants(_)));
    format[4] = 24;
    assert!(rt; matches!(message_of(&format), Message::Errs(RfbBad::Format)));
    Ok(())
}
