//! A record that asks for a view.

ghost use Rattle.std.specs.Prelude.{◌≡◌, Some, None, if◌then◌else◌};
ghost use Rattle.std.specs.Str.{bytes_eq};
ghost use Rattle.csv.specs.Records.{fields_of};
ghost use Rattle.auction_views.specs.View.{is_view, asked_member_at, asked_member, subject_at, subject_of, trades_at};
ghost use Rattle.auction_views.specs.View.{trades_before, view_about, view_of};

use csv::ByteRecord;
use order_file::{RecordFault, count_within, number_of};

/// What is asked for. A view shows it as it is.
#[derive(Clone, Copy, Debug, PartialEq, Eq)]
pub enum View {
    /// The indicative price, or the best bid and ask.
    Display,
    /// The current auction, the reference price, and the calls that were made and that are left.
    Day,
    /// The ladder of the orders that count.
    Ladder,
    /// The trades after the day's first `before` ones.
    Trades { before: u32 },
    /// The open orders, or those of one member.
    Orders { member: Option<u8> },
}

/// What the second field of a view names, or that there is none.
#[derive(Clone, Copy, Debug, PartialEq, Eq)]
pub(crate) enum Subject {
    Display,
    Day,
    Ladder,
    Trades,
    Orders,
}

/// Whether a record asks for a view: its first field is `show`.
#[tactic(auto, unfolding(crate::specs::View::is_view))]
#[inline]
pub fn is_view(fields: &ByteRecord) -> bool
    ensures { result ≡ is_view (fields_of fields.now) }
{
    match fields.get(0) {
        Some(field) => field == b"show".as_slice(),
        None => false,
    }
}

#[tactic(auto, unfolding(crate::specs::View::subject_of))]
fn subject_of(field: &[u8]) -> Option<Subject>
    ensures { result ≡ subject_of field.now }
{
    if field == b"day".as_slice() {
        Some(Subject::Day)
    } else if field == b"ladder".as_slice() {
        Some(Subject::Ladder)
    } else if field == b"trades".as_slice() {
        Some(Subject::Trades)
    } else if field == b"orders".as_slice() {
        Some(Subject::Orders)
    } else {
        None
    }
}

/// What a view is of: of the display, where it names nothing.
#[tactic(auto, unfolding(crate::specs::View::subject_at))]
fn subject_at(fields: &ByteRecord) -> Result<Subject, RecordFault>
    ensures { result ≡ subject_at (fields_of fields.now) }
{
    match fields.get(1) {
        Some(field) => subject_of(field).ok_or(RecordFault::BadCommand),
        None => Ok(Subject::Display),
    }
}

/// How many trades come before the one with this number, from 1.
#[tactic(auto, unfolding(crate::specs::View::trades_before))]
fn trades_before(field: &[u8]) -> Option<u32>
    ensures { result ≡ trades_before field.now }
{
    let number = number_of(field)?;
    number.checked_sub(1)
}

#[tactic(auto, unfolding(crate::specs::View::trades_at))]
fn trades_at(fields: &ByteRecord) -> Result<u32, RecordFault>
    ensures { result ≡ trades_at (fields_of fields.now) }
{
    fields
        .get(2)
        .and_then(|field| trades_before(field))
        .ok_or(RecordFault::BadField { field: 3 })
}

/// A member's number, below the count of members.
#[tactic(auto, unfolding(crate::specs::View::asked_member))]
fn asked_member(members: u8, field: &[u8]) -> Option<u8>
    ensures { result ≡ asked_member members field.now }
{
    let member = number_of(field)?;
    if member >= u32::from(members) {
        return None;
    }
    Some(member as u8)
}

/// The member that is named, if one is.
#[tactic(auto, unfolding(crate::specs::View::asked_member_at))]
fn asked_member_at(members: u8, fields: &ByteRecord) -> Result<Option<u8>, RecordFault>
    ensures { result ≡ asked_member_at members (fields_of fields.now) }
{
    match fields.get(2) {
        None => Ok(None),
        Some(field) => match asked_member(members, field) {
            None => Err(RecordFault::BadField { field: 3 }),
            Some(member) => Ok(Some(member)),
        },
    }
}

/// The view of a subject: the number of fields is looked at first, then the field after the word.
#[tactic(auto, unfolding(crate::specs::View::view_about))]
fn view_about(subject: Subject, fields: &ByteRecord, members: u8) -> Result<View, RecordFault>
    ensures { result ≡ view_about members subject (fields_of fields.now) }
{
    match subject {
        Subject::Display => Ok(View::Display),
        Subject::Day => {
            count_within(fields, 2, 2)?;
            Ok(View::Day)
        }
        Subject::Ladder => {
            count_within(fields, 2, 2)?;
            Ok(View::Ladder)
        }
        Subject::Trades => {
            count_within(fields, 3, 3)?;
            let before = trades_at(fields)?;
            Ok(View::Trades { before })
        }
        Subject::Orders => {
            count_within(fields, 2, 3)?;
            let member = asked_member_at(members, fields)?;
            Ok(View::Orders { member })
        }
    }
}

/// The view that a record asks for, or its first fault: a second field that is no word of a view (`BadCommand`), too
/// few or too many fields for it, or a malformed third field: the number of a trade, from 1, or a member's, below the
/// count of members.
#[tactic(auto, unfolding(crate::specs::View::view_of))]
pub fn view_of(fields: &ByteRecord, members: u8) -> Result<View, RecordFault>
    ensures { result ≡ view_of members (fields_of fields.now) }
{
    let subject = subject_at(fields)?;
    view_about(subject, fields, members)
}
