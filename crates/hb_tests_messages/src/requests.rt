//! What a message asks, why it asks nothing, and the message of a request.

use hb_io::Text;
use hb_request::{Ask, FieldName, MESSAGE_LIMIT, Request, WireError, parse, print_request};
use std::alloc::{AllocError, Global};
use std::test::Fail;

/// Why the message is no request; none if it is one.
fn refusal(alloc: Global, text: &str) -> Option<WireError> {
    parse(alloc, text).err()
}

#[test]
fn a_message_that_is_no_request_is_told_why(rt: HostRuntime) -> Result<(), Fail> {
    let cases = [
        ("", WireError::NoCommand),
        (" {}", WireError::NoCommand),
        ("fly {}", WireError::UnknownCommand),
        (r#"Look {"room":1}"#, WireError::UnknownCommand),
        ("look\t{\"room\":1}", WireError::UnknownCommand),
        ("look", WireError::Json),
        ("look ", WireError::Json),
        ("look []", WireError::Json),
        (r#"look {"room":1}}"#, WireError::Json),
    ];
    for (text, want) in cases {
        assert_eq!(rt; refusal(rt.alloc(), text), Some(want), "{text}");
    }
    Ok(())
}

/// A request to table 1 of room 1, with number 1 and further members.
fn at_table(alloc: Global, word: &str, members: &str) -> Result<String, AllocError> {
    format!(in alloc; "{word} {{\"number\":1,\"room\":1,\"table\":1{members}}}")
}

#[test]
fn the_first_wrong_field_is_named(rt: HostRuntime) -> Result<(), Fail> {
    let alloc = rt.alloc();
    let cases = [
        ("look {}", FieldName::Room),
        (r#"look {"room":4294967296}"#, FieldName::Room),
        (r#"look {"room":1.0}"#, FieldName::Room),
        (r#"look {"room":-1}"#, FieldName::Room),
        (r#"hello {"key":""}"#, FieldName::Name),
        (r#"hello {"name":"Ann","key":""}"#, FieldName::Key),
        (r#"sit {"number":0,"room":1,"table":0}"#, FieldName::Table),
        (r#"sit {"number":0,"room":1,"table":1}"#, FieldName::Number),
    ];
    for (text, want) in cases {
        assert_eq!(rt;
            refusal(alloc, text),
            Some(WireError::Field(want)),
            "{text}"
        );
    }
    let cases = [
        ("play", "", FieldName::Order),
        ("discard", r#","order":60"#, FieldName::Order),
        ("clue", r#","rank":1,"to":6"#, FieldName::To),
        ("clue", r#","to":5"#, FieldName::Clue),
        ("clue", r#","color":1,"rank":1,"to":5"#, FieldName::Clue),
        ("clue", r#","color":null,"rank":1,"to":5"#, FieldName::Clue),
        ("clue", r#","rank":0,"to":5"#, FieldName::Clue),
        ("note", r#","order":5,"text":null"#, FieldName::Text),
        ("watch", r#","shadow":6"#, FieldName::Shadow),
        ("load", r#","id":9007199254740993"#, FieldName::Id),
        ("go", r#","turn":65536"#, FieldName::Turn),
        (
            "hypo",
            r#","action":{"target":1,"type":4,"value":4}"#,
            FieldName::Action,
        ),
        (
            "hypo",
            r#","action":{"target":1,"type":2}"#,
            FieldName::Action,
        ),
        ("open", r#","options":null"#, FieldName::Options),
        (
            "open",
            r#","options":{"deckPlays":true}"#,
            FieldName::Options,
        ),
        (
            "open",
            r#","options":{"variant":"9 Suits"}"#,
            FieldName::Options,
        ),
        (
            "open",
            r#","options":{"oneExtraCard":true,"oneLessCard":true}"#,
            FieldName::Options,
        ),
        (
            "open",
            r#","options":{"timeBase":1000001,"timed":true}"#,
            FieldName::Options,
        ),
    ];
    for (word, members, want) in cases {
        let text = at_table(alloc, word, members)?;
        let found = refusal(alloc, text.as_str());
        assert_eq!(rt; found, Some(WireError::Field(want)), "{word} {members}");
    }
    Ok(())
}

/// The message of what a message asks.
fn printed(rt: &HostRuntime, text: &str) -> Result<Text, Fail> {
    let request = parse(rt.alloc(), text)?;
    Ok(print_request(rt.alloc(), &request)?)
}

#[test]
fn a_request_is_written_in_one_way(rt: HostRuntime) -> Result<(), Fail> {
    let cases = [
        (r#"look  { "room" : 0 , "x":[]} "#, r#"look {"room":0}"#),
        (
            r#"hello {"name":"Ann","key":"k1"}"#,
            r#"hello {"key":"k1","name":"Ann"}"#,
        ),
        (
            r#"open {"room":1,"table":2,"number":3}"#,
            r#"open {"number":3,"options":{"variant":"No Variant"},"room":1,"table":2}"#,
        ),
        (
            r#"open {"room":1,"table":2,"number":3,"options":{"startingPlayer":"x","timeBase":1}}"#,
            r#"open {"number":3,"options":{"variant":"No Variant"},"room":1,"table":2}"#,
        ),
        (
            r#"watch {"room":1,"table":2,"number":3}"#,
            r#"watch {"number":3,"room":1,"shadow":null,"table":2}"#,
        ),
        (
            r#"clue {"room":1,"table":2,"number":3,"to":5,"rank":5}"#,
            r#"clue {"number":3,"rank":5,"room":1,"table":2,"to":5}"#,
        ),
        (
            r#"hypo {"room":1,"table":2,"number":3,"action":{"type":0,"target":255,"value":"x"}}"#,
            r#"hypo {"action":{"target":255,"type":0},"number":3,"room":1,"table":2}"#,
        ),
        (
            r#"note {"room":1,"table":2,"number":3,"order":59,"text":""}"#,
            r#"note {"number":3,"order":59,"room":1,"table":2,"text":""}"#,
        ),
    ];
    for (text, want) in cases {
        assert_eq!(rt; printed(&rt, text)?.as_str(), want, "{text}");
        assert_eq!(rt; printed(&rt, want)?.as_str(), want, "{want}");
    }
    let play = r#"play {"number":4,"order":0,"room":1,"table":1}"#;
    let request = parse(rt.alloc(), play)?;
    let is_play = matches!(
        &request,
        Request::Room {
            room: 1,
            table: 1,
            number: 4,
            ask: Ask::Play { order: 0 },
        }
    );
    assert!(rt; is_play);
    assert_eq!(rt; print_request(rt.alloc(), &request)?.as_str(), play);
    Ok(())
}

/// A `hello` that an unknown key fills to a length.
fn hello_of(alloc: Global, length: usize) -> Result<String, AllocError> {
    let mut text = String::from_str(alloc, r#"hello {"key":"k1","name":"Ann","x":""#)?;
    for _ in 0..length.saturating_sub(text.len() + 2) {
        text.push('x')?;
    }
    text.push_str(r#""}"#)?;
    Ok(text)
}

#[test]
fn a_message_may_have_16_384_bytes(rt: HostRuntime) -> Result<(), Fail> {
    let alloc = rt.alloc();
    let longest = hello_of(alloc, MESSAGE_LIMIT)?;
    assert_eq!(rt; longest.len(), 16_384);
    assert!(rt; refusal(alloc, longest.as_str()).is_none());
    let longer = hello_of(alloc, MESSAGE_LIMIT + 1)?;
    assert!(rt; refusal(alloc, longer.as_str()) == Some(WireError::TooLong));
    Ok(())
}
