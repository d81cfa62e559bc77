//! Does a spawner run its jobs, count them, and refuse one?

ghost use Rattle.std.specs.Prelude.{◌≡◌, ◌*◌};
ghost use Rattle.hb_edge.specs.Spawning.{told_below, spawner_faults, spawner_started, spawner_waited};

use hb_edge::{Job, Spawner, ThreadSpawner, start, wait};
use std::test::*;
use std::thread::Threads;

/// Answers twice its number.
#[derive(Drop)]
struct Double {
    number: u32,
}

impl Job<u64> for Double {
    ghost answers = { λ job answer. answer ≡ 2 * job.number };

    fn run(self) -> u64 {
        2 * u64::from(self.number)
    }
}

/// A spawner that admits two jobs.
#[derive(Drop)]
struct TwoJobs<R> {
    threads: ThreadSpawner<R>,
    asked: u64,
}

impl<R: Threads> Spawner for TwoJobs<R> {
    type Runtime = R;

    ghost faults = { λ s. spawner_faults s.threads };

    ghost started = { λ s. told_below (spawner_started s.threads) };

    ghost waited = { λ s. told_below (spawner_waited s.threads) };

    fn runtime(&self) -> &R {
        self.threads.runtime()
    }

    fn admits(&mut self) -> bool {
        self.asked = self.asked.saturating_add(1);
        if self.asked > 2 {
            self.threads.count_refused();
            return false;
        }
        true
    }

    fn count_refused(&mut self) {
        self.threads.count_refused();
    }

    fn count_started(&mut self) {
        self.threads.count_started();
    }

    fn count_waited(&mut self) {
        self.threads.count_waited();
    }
}

#[test]
fn jobs_are_run_counted_and_refused(rt: HostRuntime) -> Result<(), Fail> {
    let mut spawner = TwoJobs {
        threads: ThreadSpawner::new(rt),
        asked: 0,
    };
    let (Ok(first), Ok(second)) = (
        start(&mut spawner, Double { number: 21 }),
        start(&mut spawner, Double { number: 4 }),
    ) else {
        return Err(Fail::from("no thread"));
    };
    assert!(rt; start(&mut spawner, Double { number: 1 }).is_err());
    assert_eq!(rt; wait(&mut spawner, second), 8);
    assert_eq!(rt; wait(&mut spawner, first), 42);
    assert_eq!(rt; spawner.threads.started(), 2);
    assert_eq!(rt; spawner.threads.waited(), 2);
    assert_eq!(rt; spawner.threads.faults(), 1);
    Ok(())
}
