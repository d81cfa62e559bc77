//! From which seed is a deck shuffled?

ghost use Rattle.std.specs.Prelude.{◌≡◌, ◌↔◌, List, ℕ, Some, None, IfOk, IfSome, IsErr, OnErr};
ghost use Rattle.std.specs.declared.option.Option.{Option};
ghost use Rattle.hb_io.specs.Causes.{HasCause, next_count};
ghost use Rattle.hb_edge.specs.Memory.{IsListed, one_more};

use crate::calls::Calls;
use hb_io::Failed;
use std::marker::Model;
use std::random::RandomSource;

/// How many bytes a seed has.
pub const SEED_LEN: usize = 32;

/// Gives seeds.
pub trait Dice {
    /// The seed of their next answer, if the dice tell it.
    ghost next: { Self → Option (List ℕ) };

    /// How many faults they have met.
    ghost faults: { Self → ℕ };

    /// A seed. [`Failed`] comes only if the outside failed in this call.
    fn seed(&mut self) -> Result<[u8; SEED_LEN], Failed>
        ensures next { IfOk result (λ seed. IfSome (next self.old) (λ told. seed ≡ told)) }
        ensures cause { HasCause (faults self.old) (faults self.new) result };
}

/// Dice in memory, which give the same seed at each call, and fail at the calls that their maker
/// lists.
#[derive(Debug, Drop)]
pub struct DiceMemory {
    seed: [u8; SEED_LEN],
    calls: Calls,
    faults: u64,
}

impl Model for DiceMemory {
    ghost use Rattle.hb_edge.specs.Memory.{MemoryDice};

    ghost Value = { MemoryDice };

    ghost view = { λ d. record { seed = d.seed; calls = d.calls; faults = d.faults } };
}

impl DiceMemory {
    /// Dice that give this seed. Each call whose number, from 1, is in `fails` fails.
    pub fn new(seed: [u8; SEED_LEN], fails: Vec<u64>) -> Self
        ensures { result ≡ record {
          seed = seed;
          calls = record { fails = fails.items; count = 0 };
          faults = 0;
        } }
    {
        DiceMemory {
            seed,
            calls: Calls::new(fails),
            faults: 0,
        }
    }

    /// How many calls failed, up to the largest `u64`.
    pub fn faults(&self) -> u64
        ensures { result ≡ self.now.faults }
    {
        self.faults
    }
}

impl Dice for DiceMemory {
    ghost next = { λ d. Some d.seed };

    ghost faults = { λ d. d.faults };

    fn seed(&mut self) -> Result<[u8; SEED_LEN], Failed>
        ensures next { IfOk result (λ seed. seed ≡ self.old.seed) }
        ensures cause { HasCause self.old.faults self.new.faults result }

        // It fails at the listed calls and at no other.
        ensures listed { IsErr result ↔ IsListed self.old.calls }
        ensures counted { self.new.calls ≡ one_more self.old.calls }
        ensures same { self.new.seed ≡ self.old.seed }
        ensures raised { OnErr result (self.new.faults ≡ next_count self.old.faults) }
    {
        if self.calls.next_fails() {
            self.faults = self.faults.saturating_add(1);
            return Err(Failed);
        }
        Ok(self.seed)
    }
}

/// The system's random bytes as dice. They tell nothing.
#[derive(Clone, Debug, Drop)]
pub struct SystemDice<R> {
    runtime: R,
    faults: u64,
}

impl<R> SystemDice<R> {
    ghost use Rattle.hb_edge.specs.System.{dice_faults};

    /// Dice that have met no fault yet.
    pub fn new(runtime: R) -> Self
        ensures { dice_faults result ≡ 0 }
    {
        SystemDice { runtime, faults: 0 }
    }

    /// How many calls failed, up to the largest `u64`.
    pub fn faults(&self) -> u64
        ensures { result ≡ dice_faults self.now }
    {
        self.faults
    }
}

impl<R: RandomSource> Dice for SystemDice<R> {
    ghost use Rattle.hb_edge.specs.System.{dice_faults};

    ghost next = { λ _. None };

    ghost faults = { λ d. dice_faults d };

    fn seed(&mut self) -> Result<[u8; SEED_LEN], Failed>
        ensures cause { HasCause (dice_faults self.old) (dice_faults self.new) result }
        ensures raised { OnErr result
            (dice_faults self.new ≡ next_count (dice_faults self.old)) }
    {
        let mut seed = [0; SEED_LEN];
        if self.runtime.fill_bytes(&mut seed).is_err() {
            self.faults = self.faults.saturating_add(1);
            return Err(Failed);
        }
        Ok(seed)
    }
}
