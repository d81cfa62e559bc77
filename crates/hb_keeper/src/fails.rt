//! Which calls of a keeper in memory fail, and do they fail before or after their work?

ghost use Rattle.std.specs.Prelude.{◌≡◌, [], ◌∷◌, ◌++◌, OnOk, OnErr};
ghost use Rattle.hb_keeper.specs.Plans.{failing, later};

use std::alloc::{AllocError, Global};
use std::marker::Model;

/// When a call fails.
#[derive(Clone, Copy, Debug, PartialEq, Eq)]
pub enum When {
    /// Before its work, which is not done.
    Before,
    /// After its work, which is done or refused.
    After,
}

/// Which of the calls to come fail, by their numbers from 1. Of two entries with one number the
/// first counts.
#[derive(Debug, Drop)]
pub struct Fails {
    inner: Vec<(u64, When)>,
}

impl Model for Fails {
    ghost use Rattle.std.specs.Prelude.{List, ℕ};
    ghost use Rattle.hb_keeper.specs.declared.fails.When.{When};

    ghost Value = { List (ℕ × When) };

    ghost view = { λ f. f.inner.items };
}

impl Fails {
    /// No call fails.
    pub fn new(alloc: Global) -> Self
        ensures { result ≡ [] }
    {
        Fails {
            inner: Vec::new(alloc),
        }
    }

    /// Adds an entry. Without memory for it the list stays as it was.
    pub fn push(&mut self, number: u64, when: When) -> Result<(), AllocError>
        ensures ok { OnOk result (self.new ≡ self.old ++ (number, when) ∷ []) }
        ensures err { OnErr result (self.new ≡ self.old) }
    {
        self.inner.push((number, when))?;
        Ok(())
    }

    /// How the next call fails, if it does. Then it is counted, so that the entries name the calls
    /// after it.
    pub(crate) fn next(&mut self) -> Option<When>
        ensures answer { result ≡ failing self.old }
        ensures later { self.new ≡ later self.old }
    {
        let next = next_in(self.inner.as_slice());
        count_down(self.inner.as_mut_slice());
        next
    }
}

fn next_in(fails: &[(u64, When)]) -> Option<When>
    ensures { result ≡ failing fails.now }
{
    for fail in fails {
        if fail.0 == 1 {
            return Some(fail.1);
        }
    }
    None
}

fn count_down(fails: &mut [(u64, When)])
    ensures { fails.new ≡ later fails.old }
{
    for fail in fails.iter_mut() {
        fail.0 = fail.0.saturating_sub(1);
    }
}
