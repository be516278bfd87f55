//! Workers in threads of their own.
ghost use Rattle.std.specs.Prelude.{◌≡◌, ◌<◌, ◌≤◌, ◌+◌, ◌++◌, ◌∷◌, [], IfOk, IfErr, MatchResult, vec_len, vec_capacity};
ghost use Rattle.share_model.specs.lists.Each.{Each};
ghost use Rattle.share_ingress.specs.Names.{LinkName};
ghost use Rattle.share_ingress.specs.Threads.{IsDoneOfOne, IsJobDone, IsNotStarted, IsOnly, IsWorkDone, Matches};

use crate::ends::IngressEnd;
use crate::handing;
use crate::handing::{Fact, Inbox};
use crate::reader::IngressReader;
use crate::workers::{Done, Gate, Why, run_worker};
use share_model::TellingReader;
use std::alloc::Global;
use std::marker::Brand;
use std::snapshot::Snapshot;
use std::sync::{Arc, Mutex, Wait};
use std::thread;
use std::thread::{Promise, PromisedHandle, Scope, Threads};

/// The duty of a worker: whose records it queues, where, and its gate.
#[derive(Drop)]
pub struct Job<R: TellingReader, G> {
    pub reader: IngressReader<R>,
    pub end: IngressEnd,
    pub gate: G,
}

// The promise that a worker did this job.
#[derive(Drop)]
struct WorkOf<R: TellingReader, G>(Snapshot<Job<R, G>>);

impl<R: TellingReader, G: Gate> Promise<Done<G>> for WorkOf<R, G> {
    ghost use Rattle.share_ingress.specs.Threads.{IsWorkDone};

    ghost kept_by = { λ p done. IsWorkDone R.gives R.left G.told p.0.value done };
}

// A worker at work, or what is left of one that was not started.
type Begun<R, G> = Result<PromisedHandle<Done<G>, WorkOf<R, G>>, Done<G>>;

/// Runs each job in a thread of its own, joins all, and gives what they leave, in the order of the jobs. Each end is of
/// its job's queue. A job whose thread is refused is not started: its reader is dropped. If there is no memory for the
/// results, no job is started, and all come back.
pub fn run_workers<T, R, G>(
    rt: &T,
    alloc: Global,
    jobs: Vec<Job<R, G>>,
) -> Result<Vec<Done<G>>, Vec<Job<R, G>>>
where
    T: Threads + Wait + Sync,
    R: TellingReader + Send + Drop,
    G: Gate + Send + Drop,
    ensures each { IfOk result (λ all. Matches (IsJobDone R.gives R.left G.told) jobs.items all.items) }
    ensures linked { IfOk result (λ all. Matches (λ job done. done.end.link ≡ job.end.link) jobs.items all.items) }
    ensures one_queue { (link : LinkName) → Each (λ job. job.end.link ≡ link) jobs.items
        → IfOk result (λ all. Each (λ done. done.end.link ≡ link) all.items) }
    ensures back { IfErr result (λ back. back ≡ jobs) }
{
    thread::scope(
        thread::scope_env(),
        rt,
        move |scope| -> Result<Vec<Done<G>>, Vec<Job<R, G>>>
            ensures each { IfOk result (λ all. Matches (IsJobDone R.gives R.left G.told) jobs.items all.items) }
            ensures back { IfErr result (λ back. back ≡ jobs) }
        { run_in(scope, rt, alloc, jobs) },
    )
}

// The same, with threads of this scope.
fn run_in<'s, E, T, R, G>(
    scope: &Scope<'s, E>,
    rt: &'s T,
    alloc: Global,
    jobs: Vec<Job<R, G>>,
) -> Result<Vec<Done<G>>, Vec<Job<R, G>>>
where
    T: Threads + Wait + Sync,
    R: TellingReader + Send + Drop + 's,
    G: Gate + Send + Drop + 's,
    ensures each { IfOk result (λ all. Matches (IsJobDone R.gives R.left G.told) jobs.items all.items) }
    ensures back { IfErr result (λ back. back ≡ jobs) }
{
    let mut jobs = jobs;
    let Ok(mut begun) = Vec::with_capacity(alloc, jobs.len()) else {
        return Err(jobs);
    };
    let Ok(mut all) = Vec::with_capacity(alloc, jobs.len()) else {
        return Err(jobs);
    };
    while let Some(job) = jobs.pop() {
        put_last(&mut begun, start(scope, rt, alloc, job));
    }
    while let Some(one) = begun.pop() {
        put_last(&mut all, finish(rt, one));
    }
    Ok(all)
}

fn put_last<A: Drop>(list: &mut Vec<A>, item: A)
    requires { vec_len list.old < vec_capacity list.old }
    ensures items { list.new.items ≡ list.old.items ++ item ∷ [] }
    ensures capacity { vec_capacity list.old ≤ vec_capacity list.new }
    ensures len { vec_len list.new ≡ vec_len list.old + 1 }
{
    let Ok(()) = list.push(item) else {
        unreachable!();
    };
}

// Starts a job in a thread of its own. The job is handed over once the thread runs, so it is still here if there is
// none.
fn start<'s, E, T, R, G>(
    scope: &Scope<'s, E>,
    rt: &'s T,
    alloc: Global,
    job: Job<R, G>,
) -> Begun<R, G>
where
    T: Threads + Wait + Sync,
    R: TellingReader + Send + Drop + 's,
    G: Gate + Send + Drop + 's,
    ensures { MatchResult result (λ handle. handle.promise.0.value ≡ job) (IsNotStarted job) }
{
    start_as::<E, T, R, G, Brand>(scope, rt, alloc, job)
}

// The same. The thread knows that the job that it takes is this one.
fn start_as<'s, E, T, R, G, K>(
    scope: &Scope<'s, E>,
    rt: &'s T,
    alloc: Global,
    job: Job<R, G>,
) -> Begun<R, G>
where
    T: Threads + Wait + Sync,
    R: TellingReader + Send + Drop + 's,
    G: Gate + Send + Drop + 's,
    K: Fact<Job<R, G>> + Send + 's,
    requires { IsOnly K.is job }
    ensures { MatchResult result (λ handle. handle.promise.0.value ≡ job) (IsNotStarted job) }
{
    let Ok(inbox) = Arc::new(alloc, Mutex::new(None)) else {
        return Err(not_started(job));
    };
    let Ok(theirs) = Arc::try_clone(&inbox) else {
        return Err(not_started(job));
    };
    let promise = WorkOf(Snapshot::of(&job));
    match scope.spawn_with(promise, move || work_on_next::<T, R, G, K>(rt, &theirs)) {
        Ok(handle) => {
            handing::put::<T, Job<R, G>, K>(rt, &inbox, job);
            Ok(handle)
        }
        Err(_) => Err(not_started(job)),
    }
}

// Takes the job that is handed over, and does it.
fn work_on_next<T, R, G, K>(rt: &T, inbox: &Inbox<Job<R, G>, K>) -> Done<G>
where
    T: Wait,
    R: TellingReader + Drop,
    G: Gate + Drop,
    K: Fact<Job<R, G>>,
    ensures { IsDoneOfOne K.is R.gives R.left G.told result }
{
    let job = handing::take::<T, Job<R, G>, K>(rt, inbox);
    let Job { reader, end, gate } = job;
    run_worker(rt, reader, end, gate)
}

fn not_started<R: TellingReader + Drop, G: Gate + Drop>(job: Job<R, G>) -> Done<G>
    ensures { IsNotStarted job result }
{
    let Job {
        reader: _,
        end,
        gate,
    } = job;
    Done {
        end,
        gate,
        why: Why::NotStarted,
        tally: 0,
    }
}

fn finish<T: Threads, R: TellingReader, G: Gate>(rt: &T, begun: Begun<R, G>) -> Done<G>
    ensures { MatchResult begun (λ handle. IsWorkDone R.gives R.left G.told handle.promise.0.value result)
        (λ done. result ≡ done) }
{
    match begun {
        Ok(handle) => handle.join(rt),
        Err(done) => done,
    }
}
