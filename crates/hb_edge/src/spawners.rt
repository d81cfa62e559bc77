//! Who starts the jobs of a server, and waits for them?
//!
//! A method of a trait can't start a thread for a type that its caller picks, so a [`Spawner`] has
//! the runtime and the counts, and [`start`] and [`wait`] are functions over any spawner.

ghost use Rattle.std.specs.Prelude.{◌≡◌, ◌+◌, ℕ, true, IfOk};
ghost use Rattle.std.specs.declared.option.Option.{Option};
ghost use Rattle.hb_io.specs.Causes.{HasCause, next_count};
ghost use Rattle.hb_edge.specs.Counts.{Counts, not};
ghost use Rattle.hb_edge.specs.Spawning.{started_in, told_below, spawner_faults, spawner_started, spawner_waited};
ghost use Rattle.hb_edge.specs.Telling.{Tells, Keeps};

use std::error::Error;
use std::fmt;
use std::marker::Model;
use std::snapshot::Snapshot;
use std::thread::{Promise, PromisedHandle, Threads, spawn_with};

/// Something to be done, which answers a `T`.
pub trait Job<T>: Drop {
    /// What holds of an answer.
    ghost answers: { Self → T → Type 0 };

    /// Does it.
    fn run(self) -> T
        ensures { answers self result };
}

/// The promise that a thread answers what its job may answer. It takes no bytes.
#[derive(Drop)]
pub struct Ran<J>(Snapshot<J>);

impl<T, J: Job<T>> Promise<T> for Ran<J> {
    ghost kept_by = { λ ran answer. J.answers ran.0.value answer };
}

/// A job that was started. Contracts see it as the job.
#[derive(Drop)]
pub struct Task<T, J: Job<T>> {
    handle: PromisedHandle<T, Ran<J>>,
}

impl<T, J: Job<T>> Model for Task<T, J> {
    ghost Value = { J };

    ghost view = { λ t. t.handle.promise.0.value };
}

/// A job was refused, and the count of faults rose. The job was dropped.
#[derive(Clone, Copy, Debug, PartialEq, Eq, Hash)]
pub struct Refused;

impl fmt::Display for Refused {
    ghost use Rattle.std.specs.Prelude.{Some, codes};

    ghost output = { λ _. Some (codes "the job was refused") };

    fn fmt<W: fmt::Write>(&self, f: &mut fmt::Formatter<W>) -> fmt::Result {
        f.write_str("the job was refused")
    }
}

impl Error for Refused {}

/// Where threads come from, with the counts of what was asked of it.
pub trait Spawner {
    /// By which threads are started and joined.
    type Runtime: Threads;

    /// How many jobs it refused.
    ghost faults: { Self → ℕ };

    /// How many jobs were started by it, if it tells that.
    ghost started: { Self → Option ℕ };

    /// For how many of these was waited, if it tells that.
    ghost waited: { Self → Option ℕ };

    /// Its runtime.
    fn runtime(&self) -> &Self::Runtime;

    /// Whether it lets one more job be started. If it does not, the count of faults rose.
    fn admits(&mut self) -> bool
        ensures cause { Counts (not result) (faults self.old) (faults self.new) }
        ensures started { Keeps (started self.old) (started self.new) }
        ensures waited { Keeps (waited self.old) (waited self.new) };

    /// Counts a job for which no thread could be made.
    fn count_refused(&mut self)
        ensures cause { Counts true (faults self.old) (faults self.new) }
        ensures started { Keeps (started self.old) (started self.new) }
        ensures waited { Keeps (waited self.old) (waited self.new) };

    /// Counts a job that was started.
    fn count_started(&mut self)
        ensures cause { faults self.new ≡ faults self.old }
        ensures started { Tells (started self.old) (started self.new) (λ jobs. jobs + 1) }
        ensures waited { Keeps (waited self.old) (waited self.new) };

    /// Counts a task that was waited for.
    fn count_waited(&mut self)
        ensures cause { faults self.new ≡ faults self.old }
        ensures started { Keeps (started self.old) (started self.new) }
        ensures waited { Tells (waited self.old) (waited self.new) (λ tasks. tasks + 1) };
}

/// Starts a job in a thread of its own. It answers an error only if the spawner refused the job, or
/// if the system made no thread.
pub fn start<P: Spawner, T: Send + Drop + 'static, J: Job<T> + Send + 'static>(
    spawner: &mut P,
    job: J,
) -> Result<Task<T, J>, Refused>
    ensures task { IfOk result (λ task. task ≡ job) }
    ensures cause { HasCause (P.faults spawner.old) (P.faults spawner.new) result }
    ensures started { Tells (P.started spawner.old) (P.started spawner.new)
        (λ jobs. jobs + started_in result) }
    ensures waited { Keeps (P.waited spawner.old) (P.waited spawner.new) }
{
    if !spawner.admits() {
        return Err(Refused);
    }
    let ran = Ran(Snapshot::of(&job));
    match spawn_with(spawner.runtime(), ran, move || job.run()) {
        Ok(handle) => {
            spawner.count_started();
            Ok(Task { handle })
        }
        Err(_) => {
            spawner.count_refused();
            Err(Refused)
        }
    }
}

/// The answer of a task's job, once it has one.
pub fn wait<P: Spawner, T: Send + Drop + 'static, J: Job<T> + Send + 'static>(
    spawner: &mut P,
    task: Task<T, J>,
) -> T
    ensures answer { J.answers task result }
    ensures cause { P.faults spawner.new ≡ P.faults spawner.old }
    ensures started { Keeps (P.started spawner.old) (P.started spawner.new) }
    ensures waited { Tells (P.waited spawner.old) (P.waited spawner.new) (λ tasks. tasks + 1) }
{
    let answer = task.handle.join(spawner.runtime());
    spawner.count_waited();
    answer
}

/// A spawner over the system's threads, which refuses a job only if the system makes no thread. It
/// tells its two numbers while they are below the largest `u64`.
#[derive(Debug, Drop)]
pub struct ThreadSpawner<R> {
    runtime: R,
    faults: u64,
    started: u64,
    waited: u64,
}

impl<R> ThreadSpawner<R> {
    /// A spawner that has started nothing yet.
    pub fn new(runtime: R) -> Self
        ensures faults { spawner_faults result ≡ 0 }
        ensures started { spawner_started result ≡ 0 }
        ensures waited { spawner_waited result ≡ 0 }
    {
        ThreadSpawner {
            runtime,
            faults: 0,
            started: 0,
            waited: 0,
        }
    }

    /// How many jobs were refused, up to the largest `u64`.
    pub fn faults(&self) -> u64
        ensures { result ≡ spawner_faults self.now }
    {
        self.faults
    }

    /// How many jobs were started, up to the largest `u64`.
    pub fn started(&self) -> u64
        ensures { result ≡ spawner_started self.now }
    {
        self.started
    }

    /// For how many tasks was waited, up to the largest `u64`.
    pub fn waited(&self) -> u64
        ensures { result ≡ spawner_waited self.now }
    {
        self.waited
    }
}

impl<R: Threads> Spawner for ThreadSpawner<R> {
    type Runtime = R;

    ghost faults = { λ s. spawner_faults s };

    ghost started = { λ s. told_below (spawner_started s) };

    ghost waited = { λ s. told_below (spawner_waited s) };

    fn runtime(&self) -> &R {
        &self.runtime
    }

    fn admits(&mut self) -> bool
        ensures cause { result ≡ true }
        ensures same { self.new ≡ self.old }
    {
        true
    }

    fn count_refused(&mut self) {
        self.faults = self.faults.saturating_add(1);
    }

    fn count_started(&mut self) {
        self.started = self.started.saturating_add(1);
    }

    fn count_waited(&mut self) {
        self.waited = self.waited.saturating_add(1);
    }
}
