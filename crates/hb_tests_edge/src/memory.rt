//! Do the forms in memory give their lists, and fail at the listed calls?

ghost use Rattle.std.specs.Prelude.{IfOk};
ghost use Rattle.hb_edge.specs.Memory.{memory_talk};
ghost use Rattle.hb_edge.specs.Talk.{IsNew};

use hb_edge::{
    Accepted, Clock, ClockMemory, Dice, DiceMemory, Door, DoorMemory, Link, LinkError, LinkMemory,
    SystemClock, SystemDice,
};
use hb_io::{Got, Text};
use std::test::*;

#[test]
fn clocks_and_dice_answer(rt: HostRuntime) -> Result<(), Fail> {
    let mut clock = ClockMemory::new(Vec::from_slice(rt.alloc(), &[5, 9])?);
    for moment in [5, 9, 9] {
        assert_eq!(rt; clock.now(), moment);
    }
    let mut system_clock = SystemClock::new(rt);
    let first = system_clock.now();
    assert!(rt; first <= system_clock.now());

    let mut dice = DiceMemory::new([7; 32], Vec::from_slice(rt.alloc(), &[2])?);
    for fails in [false, true, false] {
        let seed = dice.seed();
        assert!(rt;
            if fails {
                seed.is_err()
            } else {
                seed == Ok([7; 32])
            }
        );
    }
    assert_eq!(rt; dice.faults(), 1);
    let mut system_dice = SystemDice::new(rt);
    assert!(rt; system_dice.seed().is_ok());
    assert_eq!(rt; system_dice.faults(), 0);
    Ok(())
}

/// A link that gives a text and Idle, and whose second receive and first send fail.
fn link(rt: &HostRuntime) -> Result<LinkMemory, Fail>
    ensures { IfOk result (λ link. IsNew (memory_talk link) link.faults) }
{
    let mut gots = Vec::new(rt.alloc());
    gots.push(Got::Text(Text::copy_of(rt.alloc(), "look")?))?;
    gots.push(Got::Idle)?;
    let receive_fails = Vec::from_slice(rt.alloc(), &[2])?;
    let send_fails = Vec::from_slice(rt.alloc(), &[1])?;
    Ok(LinkMemory::new(rt.alloc(), gots, receive_fails, send_fails))
}

#[test]
fn a_link_gives_its_list_and_then_closed(rt: HostRuntime) -> Result<(), Fail> {
    let mut link = link(&rt)?;
    let text = Text::copy_of(rt.alloc(), "look")?;
    assert!(rt; link.recv() == Ok(Got::Text(text)));
    assert!(rt; link.recv() == Err(LinkError::Fault));
    assert!(rt; link.recv() == Ok(Got::Idle));
    assert!(rt; link.recv() == Ok(Got::Closed));
    assert!(rt; link.send("lost") == Err(LinkError::Fault));
    assert!(rt; link.send("kept") == Ok(()));
    let stub = link.close();
    assert_eq!(rt; stub.faults(), 2);
    assert_eq!(rt; stub.sent().len(), 1);
    assert_eq!(rt; stub.sent()[0].as_str(), "kept");
    Ok(())
}

#[test]
fn a_door_gives_its_list_and_then_closed(rt: HostRuntime) -> Result<(), Fail> {
    let mut answers = Vec::new(rt.alloc());
    answers.push(Accepted::Link(link(&rt)?))?;
    answers.push(Accepted::Idle)?;
    let fails = Vec::from_slice(rt.alloc(), &[2])?;
    let mut door = DoorMemory::new(rt.alloc(), answers, fails)?;
    let Ok(Accepted::Link(link)) = door.accept() else {
        return Err(Fail::from("no link"));
    };
    assert!(rt; matches!(door.accept(), Err(LinkError::Fault)));
    assert!(rt; matches!(door.accept(), Ok(Accepted::Idle)));
    assert!(rt; matches!(door.accept(), Ok(Accepted::Closed)));
    door.give_back(link.close());
    assert_eq!(rt; door.back().len(), 1);
    Ok(())
}
