//! Refusals that are given where something doesn't hold; their names are copied only then.
ghost use Rattle.std.specs.Prelude.{◌≡◌, IfOk, Some};
ghost use Rattle.qmp_rules.specs.Refusals.{refused};

use crate::refusal::{Crowd, FileFault, Refusal};
use blk_base::NoMemory;
use qmp_asks::Name;
use std::alloc::Global;

/// What a look at something gives: the refusal, where it is refused.
pub(crate) type Found = Result<Option<Refusal>, NoMemory>;

pub(crate) fn bad_value(alloc: Global, is_refused: bool, member: &str) -> Found
    ensures { IfOk result (λ found. found ≡ refused is_refused (Refusal.BadValue member.now)) }
{
    if is_refused {
        Ok(Some(Refusal::BadValue(Name::copied(alloc, member)?)))
    } else {
        Ok(None)
    }
}

pub(crate) fn bad_name(alloc: Global, is_refused: bool, member: &str) -> Found
    ensures { IfOk result (λ found. found ≡ refused is_refused (Refusal.BadName member.now)) }
{
    if is_refused {
        Ok(Some(Refusal::BadName(Name::copied(alloc, member)?)))
    } else {
        Ok(None)
    }
}

pub(crate) fn not_found(alloc: Global, is_refused: bool, name: &str, is_device: bool) -> Found
    ensures { IfOk result
        (λ found. found ≡ refused is_refused (Refusal.NotFound name.now is_device)) }
{
    if is_refused {
        Ok(Some(Refusal::NotFound {
            name: Name::copied(alloc, name)?,
            is_device,
        }))
    } else {
        Ok(None)
    }
}

pub(crate) fn not_active(alloc: Global, is_refused: bool, job: &str) -> Found
    ensures { IfOk result (λ found. found ≡ refused is_refused (Refusal.NotActive job.now)) }
{
    if is_refused {
        Ok(Some(Refusal::NotActive(Name::copied(alloc, job)?)))
    } else {
        Ok(None)
    }
}

pub(crate) fn name_taken(alloc: Global, is_refused: bool, name: &str) -> Found
    ensures { IfOk result (λ found. found ≡ refused is_refused (Refusal.NameTaken name.now)) }
{
    if is_refused {
        Ok(Some(Refusal::NameTaken(Name::copied(alloc, name)?)))
    } else {
        Ok(None)
    }
}

pub(crate) fn too_many(is_refused: bool, crowd: Crowd) -> Found
    ensures { IfOk result (λ found. found ≡ refused is_refused (Refusal.TooMany crowd)) }
{
    if is_refused {
        Ok(Some(Refusal::TooMany(crowd)))
    } else {
        Ok(None)
    }
}

pub(crate) fn driver(alloc: Global, is_refused: bool, node: &str) -> Found
    ensures { IfOk result (λ found. found ≡ refused is_refused (Refusal.Driver node.now)) }
{
    if is_refused {
        Ok(Some(Refusal::Driver(Name::copied(alloc, node)?)))
    } else {
        Ok(None)
    }
}

pub(crate) fn file(alloc: Global, is_refused: bool, name: &str, fault: FileFault) -> Found
    ensures { IfOk result (λ found. found ≡ refused is_refused (Refusal.File name.now fault)) }
{
    if is_refused {
        Ok(Some(Refusal::File {
            name: Name::copied(alloc, name)?,
            fault,
        }))
    } else {
        Ok(None)
    }
}

pub(crate) fn file_used(alloc: Global, is_refused: bool, name: &str) -> Found
    ensures { IfOk result (λ found. found ≡ refused is_refused (Refusal.FileUsed name.now)) }
{
    if is_refused {
        Ok(Some(Refusal::FileUsed(Name::copied(alloc, name)?)))
    } else {
        Ok(None)
    }
}

pub(crate) fn unsettled(alloc: Global, is_refused: bool, node: &str) -> Found
    ensures { IfOk result (λ found. found ≡ refused is_refused (Refusal.Unsettled node.now)) }
{
    if is_refused {
        Ok(Some(Refusal::Unsettled(Name::copied(alloc, node)?)))
    } else {
        Ok(None)
    }
}

pub(crate) fn job_holds(alloc: Global, node: &str, job: &str) -> Found
    ensures { IfOk result (λ found. found ≡ Some (Refusal.JobHolds node.now job.now)) }
{
    Ok(Some(Refusal::JobHolds {
        node: Name::copied(alloc, node)?,
        job: Name::copied(alloc, job)?,
    }))
}

pub(crate) fn bitmap_busy(alloc: Global, bitmap: &str, job: &str) -> Found
    ensures { IfOk result (λ found. found ≡ Some (Refusal.BitmapBusy bitmap.now job.now)) }
{
    Ok(Some(Refusal::BitmapBusy {
        bitmap: Name::copied(alloc, bitmap)?,
        job: Name::copied(alloc, job)?,
    }))
}

pub(crate) fn read_only(alloc: Global, is_refused: bool, node: &str) -> Found
    ensures { IfOk result (λ found. found ≡ refused is_refused (Refusal.ReadOnly node.now)) }
{
    if is_refused {
        Ok(Some(Refusal::ReadOnly(Name::copied(alloc, node)?)))
    } else {
        Ok(None)
    }
}

pub(crate) fn not_in_chain(alloc: Global, is_refused: bool, node: &str) -> Found
    ensures { IfOk result (λ found. found ≡ refused is_refused (Refusal.NotInChain node.now)) }
{
    if is_refused {
        Ok(Some(Refusal::NotInChain(Name::copied(alloc, node)?)))
    } else {
        Ok(None)
    }
}

pub(crate) fn size_differs(alloc: Global, is_refused: bool, first: &str, second: &str) -> Found
    ensures { IfOk result
        (λ found. found ≡ refused is_refused (Refusal.SizeDiffers first.now second.now)) }
{
    if is_refused {
        Ok(Some(Refusal::SizeDiffers {
            first: Name::copied(alloc, first)?,
            second: Name::copied(alloc, second)?,
        }))
    } else {
        Ok(None)
    }
}

pub(crate) fn has_backing(alloc: Global, is_refused: bool, node: &str) -> Found
    ensures { IfOk result (λ found. found ≡ refused is_refused (Refusal.HasBacking node.now)) }
{
    if is_refused {
        Ok(Some(Refusal::HasBacking(Name::copied(alloc, node)?)))
    } else {
        Ok(None)
    }
}

pub(crate) fn not_empty(alloc: Global, is_refused: bool, node: &str) -> Found
    ensures { IfOk result (λ found. found ≡ refused is_refused (Refusal.NotEmpty node.now)) }
{
    if is_refused {
        Ok(Some(Refusal::NotEmpty(Name::copied(alloc, node)?)))
    } else {
        Ok(None)
    }
}

pub(crate) fn in_use(alloc: Global, is_refused: bool, node: &str, parent: &str) -> Found
    ensures { IfOk result
        (λ found. found ≡ refused is_refused (Refusal.InUse node.now parent.now)) }
{
    if is_refused {
        Ok(Some(Refusal::InUse {
            node: Name::copied(alloc, node)?,
            parent: Name::copied(alloc, parent)?,
        }))
    } else {
        Ok(None)
    }
}

pub(crate) fn not_ready(alloc: Global, is_refused: bool, job: &str) -> Found
    ensures { IfOk result (λ found. found ≡ refused is_refused (Refusal.NotReady job.now)) }
{
    if is_refused {
        Ok(Some(Refusal::NotReady(Name::copied(alloc, job)?)))
    } else {
        Ok(None)
    }
}
