//! An image that is open: what each guest cluster is mapped to, and reading what is mapped.

ghost use Rattle.std.specs.Prelude.{◌≡◌, ◌↔◌, ◌+◌, ◌*◌, ◌/◌, ◌<◌, ℕ, List, length, Some, IsTrue, IfErr, OnOk, OnErr};
ghost use Rattle.q2_format.specs.Entry.{l2_entry};
ghost use Rattle.q2_tables.specs.Entries.{entry_of};

use crate::header::cluster_size;
use blk_base::{DevStop, Device, Span};
use q2_format::Header;
use q2_refs::Refs;
use q2_tables::{Mapping, Tables};
use std::marker::Model;

/// An open image: its header, and its tables and refcounts in memory, as its file has them. Its calls take the
/// device that it was opened on.
#[derive(Debug, Drop)]
pub struct Image {
    pub(crate) header: Header,
    pub(crate) tables: Tables,
    pub(crate) refs: Refs,
}

impl Model for Image {
    ghost use Rattle.q2_image.specs.Image.{Known, IsOpen};

    ghost Value = { Known };

    ghost view = { λ a. record { header = a.header; tables = a.tables; refs = a.refs } };

    ghost invariant = { λ a.
        IsOpen (record { header = a.header; tables = a.tables; refs = a.refs }) };
}

impl Image {
    ghost use Rattle.q2_format.specs.declared.entries.L2Entry.TheVariants as entries;
    ghost use Rattle.std.specs.Prelude.{is_some};
    ghost use Rattle.q2_image.specs.Image.{IsImageOf, clusters_in, cluster_size_in, entry_in};
    ghost use Rattle.q2_image.specs.Guest.{file_entry, guest_bytes};
    ghost use Rattle.q2_image.specs.Reading.{IsHost, IsWithinCluster};
    ghost use Rattle.blk_base.specs.Calls.{FailedLast};
    ghost use Rattle.blk_base.specs.Content.{AreZeroPast, bytes_at};
    ghost use Rattle.blk_base.specs.Device.{Reads};
    ghost use Rattle.blk_base.specs.declared.device.DeviceCall.{DeviceCall};
    ghost use Rattle.q2_image.specs.Writing.{TellsFault, count_of, own_place};

    /// The bytes of the disk.
    pub fn size(&self) -> u64
        ensures { result ≡ self.now.header.size }
    {
        self.header.size
    }

    /// Whether the header names a backing file.
    pub fn has_backing_name(&self) -> bool
        ensures { result ≡ is_some self.now.header.name }
    {
        self.header.name.is_some()
    }

    /// The bytes of a cluster: 65,536 in the shape that is supported.
    pub fn cluster_size(&self) -> u64
        ensures size { result ≡ cluster_size_in self.now }
        ensures bits { self.now.header.cluster_bits ≡ 16 }
    {
        cluster_size(&self.header)
    }

    /// What a guest cluster is mapped to.
    pub fn mapping(&self, cluster: u64) -> Mapping
        requires { cluster < clusters_in self.now }
        ensures known { entry_of result ≡ entry_in self.now cluster }
        ensures file { (file : List ℕ) → IsImageOf file self.now
            → entry_of result ≡ file_entry file cluster }
    {
        self.tables.lookup(cluster)
    }

    /// Whether no cluster of the disk is mapped, nor reads as zeros by itself.
    pub fn is_empty(&self) -> bool
        ensures { IsTrue result ↔
            ((cluster : ℕ) → cluster < clusters_in self.now
            → entry_in self.now cluster ≡ entries.Unallocated) }
    {
        let clusters = self.header.size.div_ceil(cluster_size(&self.header));
        for cluster in 0..clusters {
            if self.tables.lookup(cluster) != Mapping::Unallocated {
                return false;
            }
        }
        true
    }

    /// Reads a part of one mapped cluster. A failed read leaves `buf` with any bytes.
    pub fn read_own<D: Device>(
        &self,
        dev: &mut D,
        span: Span,
        buf: &mut [u8],
    ) -> Result<(), DevStop>
        requires cluster { IsWithinCluster (cluster_size_in self.now) span }
        requires disk { span.start / cluster_size_in self.now < clusters_in self.now }
        requires mapped { IsHost (entry_in self.now (span.start / cluster_size_in self.now)) }
        requires whole { length buf.old ≡ span.len }
        ensures read { OnOk result ((file : List ℕ) → D.content dev.old ≡ Some file
            → buf.new ≡ bytes_at file (own_place self.now span) span.len) }
        ensures guest { OnOk result
            ((file backing : List ℕ) → D.content dev.old ≡ Some file → IsImageOf file self.now
            → buf.new ≡ guest_bytes file backing span.start span.len) }
        ensures past { OnOk result
            (AreZeroPast (D.size dev.old) (own_place self.now span) buf.new) }
        ensures cause { IfErr result TellsFault }
        ensures device { Reads D.Device (count_of result) dev.old dev.new }
        ensures call { OnErr result (FailedLast
            (DeviceCall.Read (own_place self.now span) span.len) (D.failed_call dev.new)) }
    {
        let cluster_size = cluster_size(&self.header);
        let Mapping::Host { host } = self.tables.lookup(span.start / cluster_size) else {
            unreachable!()
        };
        match dev.read_at(host + span.start % cluster_size, buf) {
            Ok(()) => Ok(()),
            Err(_) => Err(DevStop::Io {
                count: dev.faults(),
            }),
        }
    }
}
