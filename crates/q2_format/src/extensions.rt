//! The list of header extensions, up to its area's end.

ghost use Rattle.std.specs.Prelude.{◌≡◌, ◌+◌, ◌^◌, ◌<◌, None};
ghost use Rattle.q2_format.specs.Header.{extensions_from, format_after};

use crate::header::Place;
use crate::numbers::u32_at;

/// The type of the ending extension.
pub(crate) const END_OF_EXTENSIONS: u32 = 0;

/// The type of the extension whose data name the backing file's format.
pub(crate) const BACKING_FORMAT: u32 = 0xe279_2aca;

/// What a list of extensions says.
#[derive(Clone, Copy, Debug, PartialEq, Eq)]
pub(crate) struct ExtensionList {
    /// Whether an extension's data end past the list's area. The fields below mean nothing then.
    pub(crate) overruns: bool,
    /// The data of the last extension that names a backing format.
    pub(crate) format: Option<Place>,
    /// Behind the ending extension, or where the list ends without one.
    pub(crate) end: u64,
    /// Whether the list has an ending extension.
    pub(crate) ended: bool,
}

/// The backing format that is known behind the extension at `at`, where `format` was known before it.
fn format_behind(cluster: &[u8], at: u64, format: Option<Place>) -> Option<Place>
    requires { at < 2 ^ 33 }
    ensures { result ≡ format_after cluster.now at format }
{
    if u32_at(cluster, at as usize) == BACKING_FORMAT {
        let len = u32_at(cluster, at as usize + 4);
        Some(Place { at: at + 8, len })
    } else {
        format
    }
}

/// The list that begins at `start`, in an area that ends at `end`.
#[tactic(auto, using(crate::proofs::Extending::extensions_short, crate::proofs::Extending::extensions_overrun, crate::proofs::Extending::extensions_ended, crate::proofs::Extending::extensions_next))]
pub(crate) fn read_extensions(cluster: &[u8], start: u64, end: u64) -> ExtensionList
    requires start { start < 2 ^ 32 }
    requires end { end < 2 ^ 32 }
    ensures { result ≡ extensions_from cluster.now start end None }
{
    let mut at = start;
    let mut format = None;
    while at + 8 <= end {
        let len = u64::from(u32_at(cluster, at as usize + 4));
        if at + 8 + len > end {
            return ExtensionList {
                overruns: true,
                format,
                end: at,
                ended: false,
            };
        }
        if u32_at(cluster, at as usize) == END_OF_EXTENSIONS {
            return ExtensionList {
                overruns: false,
                format,
                end: at + 8,
                ended: true,
            };
        }
        format = format_behind(cluster, at, format);
        // The next extension begins at a multiple of 8 bytes behind this one.
        at = at + 8 + (len + 7) / 8 * 8;
    }
    ExtensionList {
        overruns: false,
        format,
        end: at.min(end),
        ended: false,
    }
}
