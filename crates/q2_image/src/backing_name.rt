//! Another backing name: its text is written beside the present one, and then, in one sector, the fields that say where
//! it stands.

ghost use Rattle.std.specs.Prelude.{◌≡◌, ◌≢◌, ◌↔◌, ◌⊎◌, ◌+◌, ◌-◌, ◌<◌, ◌≤◌, ℕ, Bool, true, ◌&&◌, List, [], ◌∷◌, ◌++◌, length, replicate, Option, Some, None, is_some, IsTrue, Err, IfOk, IfErr, IfSome, OnOk, OnErr, if◌then◌else◌};
ghost use Rattle.std.specs.Option.{ForSome, option_copied};
ghost use Rattle.std.specs.Str.{IsUtf8};
ghost use Rattle.blk_base.specs.Calls.{FailedLast};
ghost use Rattle.blk_base.specs.Device.{CountsFault, Reads, Untouched, Writes, stop_of, fault_of};
ghost use Rattle.blk_base.specs.Writes.{AtEachStop, end_of_writes};
ghost use Rattle.blk_base.specs.declared.device.DeviceCall.{DeviceCall};
ghost use Rattle.blk_base.specs.declared.fault.DevStop.TheVariants.{NoSpace};
ghost use Rattle.q2_format.specs.Bytes.{place_bytes};
ghost use Rattle.q2_format.specs.Created.{IsNewName, IsNewFormat};
ghost use Rattle.q2_format.specs.Renamed.{format_room, name_fields, needs_ending, next_extension, new_name_offset};
ghost use Rattle.q2_image.specs.BackingName.{EndsWithFields, IsLengthRead, IsPutBetween, MakesEarly, MakesFormat, HasSameName, IsOldOrRenamed, RenamesImage, ending_writes, fields_end, format_writes, last_bytes, name_in, reads_length, rename_end, rename_writes, stop_by, text_writes, with_format, with_format_at, with_name};
ghost use Rattle.q2_image.specs.Image.{IsImageOf, IsOpen};
ghost use Rattle.q2_image.specs.Writing.{TellsFault, IsSameDisk, autoclear_end, autocleared, count_of};

use crate::image::Image;
use blk_base::{DevStop, Device, Stop, write};
use byteorder::{BigEndian, ByteOrder};
use q2_format::{
    Header, Place, ending_place, format_bytes, format_room, name_fields, new_name_offset, renamed,
};

/// Where the fields of the name begin in the header, and where they end.
const FIELDS: u64 = 8;

const FIELDS_END: u64 = 20;

/// The bytes of a number of an extension's head: its type, and its length.
const NUMBER: u64 = 4;

/// The bytes of a whole head, as an ending extension is.
const EXTENSION_HEAD: u64 = 8;

/// Where the autoclear field ends.
const AUTOCLEAR_END: u64 = 96;

/// The bytes of a sector, in which the last write lies.
const SECTOR: usize = 512;

impl Image {
    /// Whether there is room for another backing name: whether `set_backing_name` would not answer `NoSpace` on a
    /// device of this capacity. Nothing is read.
    pub fn name_fits(&self, name: Option<&str>, format: Option<&str>, capacity: u64) -> bool
        requires name { ForSome name (λ name. IsNewName name.now) }
        requires format { ForSome format (λ format. IsNewFormat format.now) }
        ensures fits { IsTrue result ↔
            (rename_end self.now (option_copied name.entry) (option_copied format.entry)
            ≤ capacity) }
        ensures text { ForSome (option_copied name.entry) IsUtf8 }
        ensures open { IsOpen self.now }
    {
        let text = self.text_fits(name, capacity);
        if self.header.autoclear != 0 && capacity < AUTOCLEAR_END {
            return false;
        }
        text && self.format_fits(format, capacity) && self.fields_end() <= capacity
    }

    /// Gives the image another backing name, or none, and that file's format where it is known. Behind a cleared
    /// autoclear field the text comes first, beside the present one; then the format takes the present one's place,
    /// where the header has one that it fits into; and last the fields that say where the name stands are written, all
    /// in one sector. A list of extensions that ended at the present name gets an ending extension with them, and one
    /// whose ending extension has data of its own that would end past the new name gets that extension's length as 0
    /// before.
    ///
    /// `NoSpace` comes exactly where a write would end above the capacity. After each refusal the present name stands,
    /// with its text; the format beside it is the present one, or the new one once that was written, or a part of either
    /// where its write stopped between two sectors. No byte of the disk changes, and no memory is taken.
    pub fn set_backing_name<D: Device>(
        &mut self,
        dev: &mut D,
        name: Option<&str>,
        format: Option<&str>,
    ) -> Result<(), DevStop>
        requires name { ForSome name (λ name. IsNewName name.now) }
        requires format { ForSome format (λ format. IsNewFormat format.now) }
        requires image { (file : List ℕ) → D.content dev.old ≡ Some file → IsImageOf file self.old }

        // the image
        ensures changes { RenamesImage D.Device self.old (option_copied name.entry)
            (option_copied format.entry) result self.new dev.old dev.new }
        ensures stops { (file : List ℕ) → D.content dev.old ≡ Some file
            → AtEachStop (IsOldOrRenamed (option_copied name.entry) file)
            (rename_writes self.old file (option_copied name.entry) (option_copied format.entry))
            file }
        ensures named { OnOk result
            ((file : List ℕ) → D.content dev.new ≡ Some file
            → name_in file ≡ option_copied name.entry) }
        ensures kept { OnErr result
            ((old new : List ℕ) → D.content dev.old ≡ Some old → D.content dev.new ≡ Some new
            → HasSameName old new) }
        ensures image { (file : List ℕ) → D.content dev.new ≡ Some file → IsImageOf file self.new }
        ensures disk { (old new : List ℕ) → D.content dev.old ≡ Some old
            → D.content dev.new ≡ Some new → IsSameDisk old new }

        // why each answer comes
        ensures no_space { (result ≡ Err NoSpace) ↔ (D.capacity dev.old
            < rename_end self.old (option_copied name.entry) (option_copied format.entry)) }
        ensures cause { CountsFault (count_of result) (D.faults dev.old) (D.faults dev.new) }

        // the device
        ensures told { is_some (D.content dev.new) ≡ is_some (D.content dev.old) }
        ensures faults { D.faults dev.old ≤ D.faults dev.new }
        ensures capacity { D.capacity dev.new ≡ D.capacity dev.old }
    {
        if !self.name_fits(name, format, dev.capacity()) {
            return Err(DevStop::NoSpace);
        }
        let length = self.ending_length(dev, name)?;
        self.write_before_fields(dev, name, format, length)?;
        self.write_fields(dev, name)
    }

    /// Where the last write ends.
    fn fields_end(&self) -> u64
        ensures { result ≡ fields_end self.now.header }
    {
        if needs_ending(&self.header) {
            ending_place(&self.header) + EXTENSION_HEAD
        } else {
            FIELDS_END
        }
    }

    /// Whether the text of a name ends within a capacity.
    fn text_fits(&self, name: Option<&str>, capacity: u64) -> bool
        requires name { ForSome name (λ name. IsNewName name.now) }
        ensures fits { IsTrue result ↔
            (end_of_writes (text_writes self.now.header (option_copied name.entry)) ≤ capacity) }
        ensures text { ForSome (option_copied name.entry) IsUtf8 }
    {
        match name {
            Some(text) => {
                new_name_offset(&self.header) + text_bytes(text).len() as u64 <= capacity
            }
            None => true,
        }
    }

    /// Whether a format, where it takes the present one's place, ends within a capacity.
    fn format_fits(&self, format: Option<&str>, capacity: u64) -> bool
        requires format { ForSome format (λ format. IsNewFormat format.now) }
        ensures { IsTrue result ↔
            (end_of_writes (format_writes self.now.header (option_copied format.entry))
            ≤ capacity) }
    {
        match (format, format_room(&self.header)) {
            (Some(_), Some(place)) => place.at + EXTENSION_HEAD <= capacity,
            _ => true,
        }
    }

    /// The length of the ending extension's own data, where a new name would come behind them.
    fn ending_length<D: Device>(&self, dev: &mut D, name: Option<&str>) -> Result<u64, DevStop>
        requires open { IsOpen self.now }
        ensures length { IfOk result (λ n. IsLengthRead (D.content dev.old) (D.size dev.old)
            self.now.header (option_copied name.entry) n) }
        ensures small { IfOk result (λ n. n < 4294967296) }
        ensures needed { OnErr result
            (reads_length self.now.header (option_copied name.entry) ≡ true) }
        ensures reads { Reads D.Device (count_of result) dev.old dev.new }
        ensures call { OnErr result (FailedLast
            (DeviceCall.Read (self.now.header.ext_end - 4) 4) (D.failed_call dev.new)) }
        ensures cause { IfErr result TellsFault }
    {
        if name.is_none() || !self.header.ended {
            return Ok(0);
        }
        let mut number = [0; 4];
        match dev.read_at(self.header.ext_end - NUMBER, &mut number) {
            Ok(()) => Ok(u64::from(BigEndian::read_u32(&number))),
            Err(_) => Err(DevStop::Io {
                count: dev.faults(),
            }),
        }
    }

    /// Makes all writes but the last.
    fn write_before_fields<D: Device>(
        &mut self,
        dev: &mut D,
        name: Option<&str>,
        format: Option<&str>,
        length: u64,
    ) -> Result<(), DevStop>
        requires open { IsOpen self.old }
        requires name { ForSome name (λ name. IsNewName name.now) }
        requires format { ForSome format (λ format. IsNewFormat format.now) }
        requires fits { rename_end self.old (option_copied name) (option_copied format)
            ≤ D.capacity dev.old }
        requires small { length < 4294967296 }
        requires image { (file : List ℕ) → D.content dev.old ≡ Some file → IsImageOf file self.old }
        ensures makes { MakesEarly D.Device self.old length (option_copied name.entry)
            (option_copied format.entry) (stop_of result) self.new dev.old dev.new }
        ensures ok { OnOk result
            (self.new ≡ with_format (autocleared self.old) (option_copied format.entry)) }
        ensures image { (file : List ℕ) → D.content dev.new ≡ Some file → IsImageOf file self.new }
    {
        self.clear_autoclear(dev)?;
        self.write_text(dev, name)?;
        self.write_format(dev, format)?;
        self.shorten_ending(dev, name, length)
    }

    /// Writes the text of a name.
    fn write_text<D: Device>(&self, dev: &mut D, name: Option<&str>) -> Result<(), DevStop>
        ensures { Writes D.Device (text_writes self.now.header (option_copied name.entry))
            (stop_of result) dev.old dev.new }
    {
        match name {
            Some(text) => write(dev, new_name_offset(&self.header), text_bytes(text)),
            None => Ok(()),
        }
    }

    /// Writes a format over the present one where it can take its place.
    fn write_format<D: Device>(&mut self, dev: &mut D, format: Option<&str>) -> Result<(), DevStop>
        requires open { IsOpen self.old }
        requires format { ForSome format (λ format. IsNewFormat format.now) }
        requires image { (file : List ℕ) → D.content dev.old ≡ Some file → IsImageOf file self.old }
        ensures makes { MakesFormat D.Device self.old (option_copied format.entry) (stop_of result)
            self.new dev.old dev.new }
        ensures ok { OnOk result (self.new ≡ with_format self.old (option_copied format.entry)) }
        ensures image { (file : List ℕ) → D.content dev.new ≡ Some file → IsImageOf file self.new }
    {
        match (format, format_room(&self.header)) {
            (Some(format), Some(place)) => self.replace_format(dev, place, format),
            _ => Ok(()),
        }
    }

    /// Writes a format and its length. Where the write fails behind the length, that is the format's already.
    fn replace_format<D: Device>(
        &mut self,
        dev: &mut D,
        place: Place,
        format: &str,
    ) -> Result<(), DevStop>
        requires open { IsOpen self.old }
        requires room { format_room self.old.header ≡ Some place }
        requires format { IsNewFormat format.now }
        requires image { (file : List ℕ) → D.content dev.old ≡ Some file → IsImageOf file self.old }
        ensures makes { MakesFormat D.Device self.old (Some format.now) (stop_of result) self.new
            dev.old dev.new }
        ensures ok { OnOk result (self.new ≡ with_format self.old (Some format.now)) }
        ensures image { (file : List ℕ) → D.content dev.new ≡ Some file → IsImageOf file self.new }
    {
        let bytes = format_bytes(format.as_bytes());
        let new = Place {
            at: place.at,
            len: format.len() as u32,
        };
        match dev.write_at(place.at - NUMBER, &bytes) {
            Ok(()) => {
                self.keep_format(new);
                Ok(())
            }
            Err(stop) => {
                if stop.done < NUMBER {
                    return Err(dev_stop(dev, stop.why));
                }
                self.keep_format(new);
                Err(dev_stop(dev, stop.why))
            }
        }
    }

    /// The header names a format there.
    fn keep_format(&mut self, place: Place)
        requires open { IsOpen (with_format_at self.old place) }
        ensures { self.new ≡ with_format_at self.old place }
    {
        self.header.format = Some(place);
    }

    /// Makes the length of the ending extension 0 where its data would end past a new name.
    fn shorten_ending<D: Device>(
        &self,
        dev: &mut D,
        name: Option<&str>,
        length: u64,
    ) -> Result<(), DevStop>
        requires small { length < 4294967296 }
        ensures { Writes D.Device (ending_writes self.now.header (option_copied name.entry) length)
            (stop_of result) dev.old dev.new }
    {
        let past = self.header.ended
            && self.header.ext_end + length > new_name_offset(&self.header);
        if name.is_none() || !past {
            return Ok(());
        }
        write(dev, self.header.ext_end - NUMBER, &[0; 4])
    }

    /// Writes the fields of the name, and the ending extension that the list needs with another one.
    fn write_fields<D: Device>(&mut self, dev: &mut D, name: Option<&str>) -> Result<(), DevStop>
        requires open { IsOpen self.old }
        requires name { ForSome name (λ name. IsNewName name.now) }
        ensures makes { EndsWithFields D.Device self.old.header [] (option_copied name.entry)
            (stop_of result) dev.old dev.new }
        ensures ok { OnOk result (self.new ≡ with_name self.old (option_copied name.entry) None) }
        ensures err { OnErr result (self.new ≡ self.old) }
    {
        let fields = fields_of(&self.header, name);
        self.put_fields(dev, &fields)?;
        self.header = renamed(&self.header, name, None);
        Ok(())
    }

    /// Writes these bytes as the fields of the name, where the list needs it with an ending extension and with what stands
    /// between them.
    fn put_fields<D: Device>(&self, dev: &mut D, fields: &[u8; 12]) -> Result<(), DevStop>
        requires open { IsOpen self.now }
        ensures { (name : Option (List ℕ)) → fields.now ≡ name_fields self.now.header name
            → EndsWithFields D.Device self.now.header [] name (stop_of result) dev.old dev.new }
    {
        if !needs_ending(&self.header) {
            return write(dev, FIELDS, fields);
        }
        let mut bytes = [0; SECTOR];
        let len = ending_place(&self.header) as usize - FIELDS_END as usize;
        read_between(dev, fields, len, &mut bytes)?;
        write(dev, FIELDS, &bytes[..len + 20])
    }
}

/// Why a call stops at a write that did.
fn dev_stop<D: Device>(dev: &D, why: Stop) -> DevStop
    ensures { result ≡ stop_by why (D.faults dev.now) }
{
    match why {
        Stop::Failed => DevStop::Io {
            count: dev.faults(),
        },
        Stop::NoSpace => DevStop::NoSpace,
    }
}

/// Puts the fields and, read from the device, the bytes behind them in front of zeros.
fn read_between<D: Device>(
    dev: &mut D,
    fields: &[u8; 12],
    len: usize,
    bytes: &mut [u8],
) -> Result<(), DevStop>
    requires zeros { bytes.old ≡ replicate 512 0 }
    requires room { len + 20 ≤ 512 }
    ensures whole { length bytes.new ≡ 512 }
    ensures put { OnOk result
        (IsPutBetween fields.now len (D.content dev.old) (D.size dev.old) bytes.new) }
    ensures reads { Reads D.Device (count_of result) dev.old dev.new }
    ensures call { OnErr result
        (FailedLast (DeviceCall.Read 20 len) (D.failed_call dev.new)) }
    ensures cause { IfErr result TellsFault }
{
    let (front, rest) = bytes.split_at_mut(12);
    front.copy_from_slice(fields);
    let (between, _) = rest.split_at_mut(len);
    match dev.read_at(FIELDS_END, between) {
        Ok(()) => Ok(()),
        Err(_) => Err(DevStop::Io {
            count: dev.faults(),
        }),
    }
}

/// The bytes of a text, which are UTF-8.
fn text_bytes(text: &str) -> &[u8]
    ensures bytes { result.now ≡ text.now }
    ensures utf8 { IsUtf8 text.now }
{
    text.as_bytes()
}

/// Whether the list of extensions ends at the present name without an ending extension.
fn needs_ending(header: &Header) -> bool
    ensures { result ≡ needs_ending header.now }
{
    header.name.is_some() && !header.ended
}

/// The fields of a name that stands where a new one goes, or of none.
fn fields_of(header: &Header, name: Option<&str>) -> [u8; 12]
    requires bits { header.now.cluster_bits ≡ 16 }
    requires name { ForSome name (λ name. IsNewName name.now) }
    ensures { result ≡ name_fields header.now (option_copied name.entry) }
{
    match name {
        Some(text) => name_fields(new_name_offset(header), text.len() as u32),
        None => [0; 12],
    }
}
