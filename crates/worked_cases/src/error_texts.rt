//! What errors say, as no contract speaks of texts for people.

use duo_run::StepFault;
use fsoe_base::BadLength;
use multi_master::NewFault;
use param_load::BadSetting;
use process_image::SlotFault;
use schedule_file::LineCause;
use std::test::Fail;

#[test]
fn settings_name_the_number(rt: HostRuntime) -> Result<(), Fail> {
    let said = format!(in rt.alloc();
        "{BadLength}; {}; {}; {}; {}; {}",
        BadSetting::Conn,
        BadSetting::Watchdog,
        BadSetting::Hand,
        BadSetting::Most,
        BadSetting::Rule
    )?;
    assert_eq!(rt;
        said.as_str(),
        "a length is 1 or an even number from 2 to 126; the connection id is 0; the watchdog is 0; \
         the limit of a handshake is 0; the longest watchdog that is accepted is 0; \
         the rule is for more than 512 bytes, or its ranges don't match"
    );
    Ok(())
}

#[test]
fn faults_name_connections_slots_and_frames(rt: HostRuntime) -> Result<(), Fail> {
    let said = format!(in rt.alloc();
        "{}; {}; {}; {}; {}; {}; {}; {}",
        NewFault::TooMany,
        NewFault::SameConn { a: 3, b: 5 },
        NewFault::Memory,
        SlotFault::TooMany,
        SlotFault::Bounds { slot: 7 },
        SlotFault::Overlap { a: 2, b: 9 },
        SlotFault::Memory,
        StepFault::NoSuchFrame
    )?;
    assert_eq!(rt;
        said.as_str(),
        "there are more than 64 connections; connections 3 and 5 have the same connection id; there was no memory; \
         there are more than 64 slots; a frame of slot 7 doesn't lie inside its image; \
         slots 2 and 9 share a byte of one image; there was no memory; the peer didn't send so many frames"
    );
    Ok(())
}

#[test]
fn causes_name_what_is_wrong_in_a_line(rt: HostRuntime) -> Result<(), Fail> {
    let said = format!(in rt.alloc();
        "{}; {}; {}; {}; {}; {}; {}; {}; {}; {}",
        LineCause::Header,
        LineCause::Word,
        LineCause::Fields,
        LineCause::Number,
        LineCause::NoLink,
        LineCause::Reference,
        LineCause::Hex,
        LineCause::Length,
        LineCause::Range,
        LineCause::Position
    )?;
    assert_eq!(rt;
        said.as_str(),
        "the line may not stand here; the first word is not that of an event; \
         the number of fields is not that of the word; a field is not a number in its range; \
         there is no such connection; a reference is not -1 to -64; \
         a field is not hexadecimal with as many bytes as a line may have; a length is not valid; \
         a value is outside its range; a place is not one of the frame"
    );
    Ok(())
}
