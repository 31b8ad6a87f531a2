//! The check of a device.
ghost use Rattle.std.specs.Prelude.{◌≡◌, ◌≤◌, IfOk, map, length};
ghost use Rattle.bv_device.specs.Reads.{Reads};
ghost use Rattle.spec_inspect.specs.Faults.{of_survey};
ghost use Rattle.spec_inspect.specs.Report.{rising};
ghost use Rattle.bv_mount.specs.Reports.{reported};
ghost use Rattle.bv_check.specs.Checks.{AnswersCheck, AreSmall, IsReportOf, sizes};

use crate::damage::damaged;
use crate::rising::rising;
use crate::{CheckFault, Report};
use bv_device::Device;
use bv_mount::{MountFault, Replay, Survey, SurveyFault, open_volume};
use bv_node::BlobRec;
use spec_tree::Digest;
use std::alloc::{AllocError, Global};

/// Checks a device: all that is wrong with its metadata, and each blob whose bytes don't have its
/// root. It writes nothing. The blobs are read and hashed eight blocks at a time, and no copy of one
/// is kept.
pub fn check<D: Device>(alloc: Global, dev: &mut D) -> Result<Report, CheckFault>
    ensures { Reads (reported result) (D.seen dev.old) (D.seen dev.new) (AnswersCheck result) }
{
    let opening = open_volume(alloc, dev)?;
    let survey = opening.meta.survey(alloc)?;
    let geometry = opening.superblock.geometry;
    let roots = damaged(alloc, dev, &geometry, &survey.blobs)?;
    let report = report_of(alloc, &survey, &roots, &opening.replay)?;
    Ok(report)
}

/// The report of a survey, of the roots of damaged blobs, and of a journal.
fn report_of(
    alloc: Global,
    survey: &Survey,
    roots: &[Digest],
    replay: &Replay,
) -> Result<Report, AllocError>
    requires small { AreSmall survey.now.blobs.items }
    requires few { length survey.now.blobs.items ≤ 65536 }
    ensures { IfOk result (IsReportOf survey.now roots.now replay.now) }
{
    let faults = mount_faults(alloc, &survey.faults)?;
    let damaged = rising(alloc, roots)?;
    Ok(Report {
        faults,
        damaged,
        blobs: survey.blobs.len() as u64,
        bytes: total_size(&survey.blobs),
        stale: replay.stale.len() as u64,
    })
}

/// Faults of a survey as faults of a volume.
fn mount_faults(alloc: Global, faults: &[SurveyFault]) -> Result<Vec<MountFault>, AllocError>
    ensures { IfOk result (λ found. found.items ≡ map of_survey faults.now) }
{
    let mut found = Vec::new(alloc);
    for fault in faults {
        found.push(MountFault::from(*fault))?;
    }
    Ok(found)
}

/// The sum of the sizes of these blobs.
fn total_size(blobs: &[BlobRec]) -> u64
    requires small { AreSmall blobs.now }
    requires few { length blobs.now ≤ 65536 }
    ensures { result ≡ sizes blobs.now }
{
    let mut total = 0;
    for blob in blobs {
        total += blob.size();
    }
    total
}
