//! Banks, pauses and deadlines, with moments and banks added up by hand.

use hb_timer::{Timer, TimerState};

#[test]
fn ends_turns_up_to_the_deadline(rt: HostRuntime) {
    let mut timer = Timer::new(10_000, 2_000, 2, 0, 1_000);
    assert_eq!(rt; timer.deadline(), Some(11_000));

    // One millisecond is left, so the bank is 1 + 2000.
    timer.turn_ends(10_999);
    assert_eq!(rt; timer.state(), TimerState::Runs(1));
    assert_eq!(rt; timer.bank(0, 10_999), 2_001);
    assert_eq!(rt; timer.bank(1, 10_999), 10_000);
    assert_eq!(rt; timer.deadline(), Some(20_999));

    // A moment below the last one counts as 10999, so the turn took no time.
    assert_eq!(rt; timer.bank(1, 5_999), 10_000);
    timer.turn_ends(5_999);
    assert_eq!(rt; timer.state(), TimerState::Runs(0));
    assert_eq!(rt; timer.bank(1, 10_999), 12_000);
    assert_eq!(rt; timer.deadline(), Some(13_000));

    // Nothing is left at the deadline itself, and the bank is the gain alone.
    assert_eq!(rt; timer.bank(0, 12_999), 1);
    assert_eq!(rt; timer.bank(0, 13_000), 0);
    timer.turn_ends(13_000);
    assert_eq!(rt; timer.bank(0, 13_000), 2_000);
}

#[test]
fn pauses_across_the_deadline(rt: HostRuntime) {
    let mut timer = Timer::new(3_000, 1_000, 2, 1, 500);
    assert_eq!(rt; timer.deadline(), Some(3_500));

    // 1000 of the 3000 are used.
    timer.pause(1_500);
    assert_eq!(rt; timer.state(), TimerState::Paused(1));
    assert_eq!(rt; timer.deadline(), None);
    assert_eq!(rt; timer.bank(1, 9_999), 2_000);

    timer.resume(10_000);
    assert_eq!(rt; timer.state(), TimerState::Runs(1));
    assert_eq!(rt; timer.deadline(), Some(12_000));
    assert_eq!(rt; timer.bank(1, 10_250), 1_750);

    timer.turn_ends(12_000);
    assert_eq!(rt; timer.state(), TimerState::Runs(0));
    assert_eq!(rt; timer.bank(1, 12_000), 1_000);
    assert_eq!(rt; timer.deadline(), Some(15_000));
}

#[test]
fn stops_without_a_gain(rt: HostRuntime) {
    let mut timer = Timer::new(10_000, 2_000, 3, 2, 0);
    timer.stop(4_000);
    assert_eq!(rt; timer.state(), TimerState::Stopped);
    assert_eq!(rt; timer.deadline(), None);
    assert_eq!(rt; timer.bank(2, 4_000), 6_000);
    assert_eq!(rt; timer.bank(2, 1_000_000), 6_000);
    assert_eq!(rt; timer.bank(0, 1_000_000), 10_000);
}
