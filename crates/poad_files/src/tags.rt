//! The tags that the entries of adapters give.
ghost use Rattle.std.specs.Prelude.{◌≡◌};
ghost use Rattle.poad_files.specs.Tags as spec;

use poa_base::{AdapterConf, Path};

/// The tag of the entry with this path, 0 where it gives none; none where there is no such entry.
pub(crate) fn tag_at(adapters: &[AdapterConf], path: &Path) -> Option<u16>
    ensures { result ≡ spec.tag_at adapters.now path.now }
{
    for adapter in adapters {
        if adapter.path == *path {
            return Some(adapter.tag);
        }
    }
    None
}
