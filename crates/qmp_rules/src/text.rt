//! What refusals say.
ghost use Rattle.std.specs.Prelude.{◌≡◌, ◌++◌, IfOk, OnOk, decimal, codes, string_bytes};
ghost use Rattle.q2_image.specs.Text.{image_stop_text};
ghost use Rattle.qmp_rules.specs.Refusals.{conflict_text, crowd_text, file_fault_text, io_text, negotiation_text, perm_text, refusal_class, refusal_text};

use crate::refusal::{Crowd, FileFault, Refusal};
use blk_base::{FaultFrom, NoMemory};
use blk_graph::Perm;
use q2_image::ImageStop;
use qmp_asks::Name;
use qmp_codec::Class;
use std::alloc::Global;

fn crowd_text(crowd: Crowd) -> &'static str
    ensures { result.now ≡ crowd_text crowd }
{
    match crowd {
        Crowd::Nodes => "nodes",
        Crowd::Devices => "devices",
        Crowd::Jobs => "jobs",
        Crowd::Bitmaps => "bitmaps",
    }
}

fn file_fault_text(fault: FileFault) -> &'static str
    ensures { result.now ≡ file_fault_text fault }
{
    match fault {
        FileFault::Absent => "is absent",
        FileFault::InUse => "is in use",
        FileFault::TooLong => "is too long",
    }
}

fn perm_text(perm: Perm) -> &'static str
    ensures { result.now ≡ perm_text perm }
{
    match perm {
        Perm::Read => "consistent-read",
        Perm::Write => "write",
        Perm::Unchanged => "write-unchanged",
    }
}

fn negotiation_text(again: bool) -> &'static str
    ensures { result.now ≡ negotiation_text again }
{
    if again {
        "capabilities are negotiated already"
    } else {
        "capabilities are not negotiated"
    }
}

fn one(alloc: Global, a: &str) -> Result<String, NoMemory>
    ensures { IfOk result (λ text. string_bytes text ≡ a.now) }
{
    Ok(String::from_str(alloc, a)?)
}

fn two(alloc: Global, a: &str, b: &str) -> Result<String, NoMemory>
    ensures { IfOk result (λ text. string_bytes text ≡ a.now ++ b.now) }
{
    let mut text = String::from_str(alloc, a)?;
    text.push_str(b)?;
    Ok(text)
}

fn three(alloc: Global, a: &str, b: &str, c: &str) -> Result<String, NoMemory>
    ensures { IfOk result (λ text. string_bytes text ≡ a.now ++ b.now ++ c.now) }
{
    let mut text = two(alloc, a, b)?;
    text.push_str(c)?;
    Ok(text)
}

fn four(alloc: Global, a: &str, b: &str, c: &str, d: &str) -> Result<String, NoMemory>
    ensures { IfOk result (λ text. string_bytes text ≡ a.now ++ b.now ++ c.now ++ d.now) }
{
    let mut text = three(alloc, a, b, c)?;
    text.push_str(d)?;
    Ok(text)
}

fn five(alloc: Global, a: &str, b: &str, c: &str, d: &str, e: &str) -> Result<String, NoMemory>
    ensures { IfOk result (λ text. string_bytes text ≡ a.now ++ b.now ++ c.now ++ d.now ++ e.now) }
{
    let mut text = four(alloc, a, b, c, d)?;
    text.push_str(e)?;
    Ok(text)
}

/// A node, and what is said of it.
fn node_text(alloc: Global, node: &Name, words: &str) -> Result<String, NoMemory>
    ensures { IfOk result (λ text. string_bytes text ≡ codes "node " ++ node.now ++ words.now) }
{
    three(alloc, "node ", node.as_str(), words)
}

fn member_text(alloc: Global, member: &Name, words: &str) -> Result<String, NoMemory>
    ensures { IfOk result (λ text. string_bytes text ≡ codes "member " ++ member.now ++ words.now) }
{
    three(alloc, "member ", member.as_str(), words)
}

/// The words of a conflict.
fn conflict_text(
    alloc: Global,
    node: &Name,
    asks: &Name,
    denies: &Name,
    perm: Perm,
) -> Result<String, NoMemory>
    ensures { IfOk result
        (λ text. string_bytes text ≡ conflict_text node.now asks.now denies.now perm) }
{
    let mut text = five(
        alloc,
        "permission conflict on node ",
        node.as_str(),
        ": ",
        asks.as_str(),
        " asks ",
    )?;
    text.push_str(perm_text(perm))?;
    text.push_str(", ")?;
    text.push_str(denies.as_str())?;
    text.push_str(" does not share it")?;
    Ok(text)
}

fn image_text(alloc: Global, stop: ImageStop) -> Result<String, NoMemory>
    ensures { IfOk result
        (λ text. string_bytes text ≡ codes "image refused: " ++ image_stop_text stop) }
{
    Ok(format!(in alloc; "image refused: {stop}")?)
}

fn dev_text(alloc: Global, number: u32, count: u64) -> Result<String, NoMemory>
    ensures { IfOk result (λ text. string_bytes text
        ≡ codes "io dev" ++ decimal number ++ codes " " ++ decimal count) }
{
    let source = format!(in alloc; "io dev{number} ")?;
    let count = format!(in alloc; "{count}")?;
    two(alloc, source.as_str(), count.as_str())
}

fn io_text(alloc: Global, from: FaultFrom, count: u64) -> Result<String, NoMemory>
    ensures { IfOk result (λ text. string_bytes text ≡ io_text from count) }
{
    match from {
        FaultFrom::Store => Ok(format!(in alloc; "io store {count}")?),
        FaultFrom::Dev(dev) => dev_text(alloc, dev.0, count),
        FaultFrom::Sink => Ok(format!(in alloc; "io sink {count}")?),
    }
}

fn no_space_text(alloc: Global, number: u32) -> Result<String, NoMemory>
    ensures { IfOk result (λ text. string_bytes text ≡ codes "nospace dev" ++ decimal number) }
{
    Ok(format!(in alloc; "nospace dev{number}")?)
}

impl Refusal {
    /// The words of the answer.
    pub fn text(&self, alloc: Global) -> Result<String, NoMemory>
        ensures { IfOk result (λ text. string_bytes text ≡ refusal_text self.now) }
    {
        match self {
            Refusal::BadJson => one(alloc, "the line is not a JSON command"),
            Refusal::UnknownCommand(name) => three(
                alloc,
                "command ",
                name.as_str(),
                " is not known",
            ),
            Refusal::Negotiation { again } => one(alloc, negotiation_text(*again)),
            Refusal::Missing(member) => member_text(alloc, member, " is missing"),
            Refusal::Unexpected(member) => member_text(alloc, member, " is not accepted"),
            Refusal::BadType(member) => member_text(alloc, member, " has the wrong type"),
            Refusal::BadValue(member) => member_text(
                alloc,
                member,
                " has a value that is not accepted",
            ),
            Refusal::BadName(member) => member_text(alloc, member, " is not a name"),
            Refusal::NotFound { name, .. } => two(alloc, name.as_str(), " is not found"),
            Refusal::NotActive(job) => two(alloc, "no job ", job.as_str()),
            Refusal::NameTaken(name) => three(alloc, "name ", name.as_str(), " is taken"),
            Refusal::TooMany(crowd) => two(alloc, "too many ", crowd_text(*crowd)),
            Refusal::Driver(node) => node_text(alloc, node, " has the wrong driver"),
            Refusal::File { name, fault } => {
                four(alloc, "file ", name.as_str(), " ", file_fault_text(*fault))
            }
            Refusal::FileUsed(name) => three(alloc, "file ", name.as_str(), " was used before"),
            Refusal::Image(stop) => image_text(alloc, *stop),
            Refusal::BackingNeeded(node) => node_text(alloc, node, " needs a backing member"),
            Refusal::Unsettled(node) => node_text(alloc, node, " is not settled"),
            Refusal::JobHolds { node, job } => {
                four(
                    alloc,
                    "node ",
                    node.as_str(),
                    " is held by job ",
                    job.as_str(),
                )
            }
            Refusal::BitmapBusy { bitmap, job } => {
                four(
                    alloc,
                    "bitmap ",
                    bitmap.as_str(),
                    " is in use by job ",
                    job.as_str(),
                )
            }
            Refusal::ReadOnly(node) => node_text(alloc, node, " is read-only"),
            Refusal::NotInChain(node) => node_text(alloc, node, " is not in the chain"),
            Refusal::SizeDiffers { first, second } => {
                let (first, second) = (first.as_str(), second.as_str());
                five(alloc, "nodes ", first, " and ", second, " differ in size")
            }
            Refusal::HasBacking(node) => node_text(alloc, node, " has a backing node"),
            Refusal::NotEmpty(node) => node_text(alloc, node, " holds clusters"),
            Refusal::InUse { node, parent } => {
                four(
                    alloc,
                    "node ",
                    node.as_str(),
                    " is in use by ",
                    parent.as_str(),
                )
            }
            Refusal::NotReady(job) => three(alloc, "job ", job.as_str(), " is not ready"),
            Refusal::Conflict {
                node,
                asks,
                denies,
                perm,
            } => { conflict_text(alloc, node, asks, denies, *perm) }
            Refusal::Aborted => one(alloc, "the transaction was aborted"),
            Refusal::Io { from, count } => io_text(alloc, *from, *count),
            Refusal::NoSpace(dev) => no_space_text(alloc, dev.0),
        }
    }

    /// The class of the answer.
    pub fn class(&self) -> Class
        ensures { result ≡ refusal_class self.now }
    {
        match self {
            Refusal::UnknownCommand(_) | Refusal::Negotiation { .. } => Class::CommandNotFound,
            Refusal::NotFound {
                is_device: true,
                ..
            } => Class::DeviceNotFound,
            Refusal::NotActive(_) => Class::DeviceNotActive,
            _ => Class::GenericError,
        }
    }
}
