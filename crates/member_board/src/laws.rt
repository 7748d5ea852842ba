//! The law of receipts and a closing. The function does nothing.

ghost use Rattle.member_board.specs.RecordedReceipts.{ReceiptsAreRecorded};

/// The receipts of a played script are entries of the history that the board's closing hands out: at each receipt's
/// number it has the script's command under the member's number, with the receipt's reply.
#[tactic(auto, using(crate::proofs::RecordedLaws::receipts_recorded))]
pub fn receipts_are_recorded()
    ensures { ReceiptsAreRecorded }
{}
