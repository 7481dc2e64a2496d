//! Reading values of three versions.
ghost use Rattle.std.specs.Prelude.{◌≡◌, None, IfOk};
ghost use Rattle.bitcode.specs.ByHand.{HasShortLengths, IsOpeningOfAny};

use crate::job::{Job, JobOf1};
use crate::queue::Queue;
use bitcode::Shaped;
use bitcode::sealed::{
    Expected, Label, OpenError, ReadsVersions, Version, Versioned, earlier_comes_back, open_any,
    seal,
};
use std::alloc::Global;

/// What jobs are sealed under today.
pub const JOB: Label = Label {
    kind: 0x4A4F_4253,
    version: 3,
};

/// What they were sealed under at first.
pub const FIRST_JOB: Label = Label {
    kind: 0x4A4F_4253,
    version: 1,
};

/// What is opened as a job.
pub const EXPECTED: Expected = Expected {
    label: JOB,
    most_bytes: 1 << 20,
};

type JobVersions = <Job as Versioned>::Versions;

type QueueVersions = <Queue as Versioned>::Versions;

/// Opens a job of any of the three versions.
///
/// Errors: those of `open_any`.
pub fn open_job<'a>(alloc: Global, bytes: &'a [u8]) -> Result<Job, OpenError>
    ensures { IfOk result (λ job. IsOpeningOfAny ⟦<Job as Shaped>⟧.data.makes
        ⟦<Job as Shaped>⟧.data.shape ⟦<JobVersions as ReadsVersions<'a, Job>>⟧.includes
        ⟦<JobVersions as ReadsVersions<'a, Job>>⟧.opens EXPECTED bytes.now job) }
{
    open_any(alloc, &EXPECTED, bytes)
}

/// Opens a queue of any of the three versions.
///
/// Errors: those of `open_any`.
pub fn open_queue<'a>(alloc: Global, bytes: &'a [u8]) -> Result<Queue, OpenError>
    ensures { IfOk result (λ queue. IsOpeningOfAny ⟦<Queue as Shaped>⟧.data.makes
        ⟦<Queue as Shaped>⟧.data.shape ⟦<QueueVersions as ReadsVersions<'a, Queue>>⟧.includes
        ⟦<QueueVersions as ReadsVersions<'a, Queue>>⟧.opens EXPECTED bytes.now queue) }
{
    open_any(alloc, &EXPECTED, bytes)
}

/// Seals a job as version 1 did, and opens it as a job of today: it has the number that was sealed, five tries and no
/// delay.
///
/// Errors: those of `seal`, and `out of memory`.
pub fn first_job_again(alloc: Global, before: &JobOf1) -> Result<Job, OpenError>
    ensures { HasShortLengths ⟦<JobOf1 as Shaped>⟧.data.lists ⟦<JobOf1 as Shaped>⟧.data.shape
        before.now
        → IfOk result (λ job. (job.number ≡ before.now.0) × (job.tries ≡ 5) × (job.delay ≡ None)) }
{
    let bytes = seal(alloc, FIRST_JOB, before)?;
    let sealed = bytes.as_slice();
    let again = open_job(alloc, sealed);
    earlier_comes_back::<Version<1>, Job>(before, FIRST_JOB, &EXPECTED, sealed, &again);
    again
}
