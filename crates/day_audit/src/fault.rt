//! Why a journal isn't audited.

use auction::OpenFault;
use order_file::FileFault;

/// Why a journal isn't audited.
#[derive(Clone, Copy, Debug, PartialEq, Eq)]
pub enum AuditFault {
    /// The journal has a fault, of which this is the first.
    File(FileFault),
    /// No auction can be opened for its day.
    Open(OpenFault),
    /// A line could not be written.
    WriteFailed,
}
