//! The audit of a recorded history.
ghost use Rattle.std.specs.Prelude.{◌≡◌, ◌↔◌, IsTrue, IfOk, IfErr, IfSome, Err, None};
ghost use Rattle.auction.specs.ConfigFault.{open_fault};
ghost use Rattle.auction.specs.Audits.{IsFindingOf};

use crate::{Auction, AuditFinding, OpenFault};
use auction_terms::{Config, Entry, Reply};
use std::alloc::Global;

/// Whether two replies are the same.
fn is_same(reply: Reply, other: Reply) -> bool
    ensures { IsTrue result ↔ (reply ≡ other) }
{
    reply == other
}

/// Says of a recorded history of a day, from its opening on, whether it is one of the auction's own, and where it
/// isn't, its first entry that breaks it. It opens an auction with the config and gives it the commands one by one.
///
/// It is refused as `Auction::open` is.
pub fn audit(alloc: Global, config: Config, entries: &[Entry]) -> Result<AuditFinding, OpenFault>
    ensures finding { IfOk result (IsFindingOf config entries.now) }
    ensures refused { IfSome (open_fault config) (λ fault. result ≡ Err fault) }
    ensures memory { open_fault config ≡ None → IfErr result (λ fault. fault ≡ OpenFault.NoMemory) }
{
    let mut auction = Auction::open(alloc, config)?;
    for (place, entry) in entries.iter().enumerate() {
        if auction.is_full() {
            return Ok(AuditFinding::BadAt(place));
        }
        let reply = auction.apply(entry.member, entry.command);
        if !is_same(entry.reply, reply) {
            return Ok(AuditFinding::BadAt(place));
        }
    }
    Ok(AuditFinding::Legal)
}
