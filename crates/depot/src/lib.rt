// The depot's forms: order forms made from a book, and a depot that takes each key once. Both stand in slices that the caller lends.
#![tactic(auto)]

ghost use Rattle.std.specs.Prelude.{◌≡◌};
ghost use Rattle.std.specs.List.{list_any};
ghost use Rattle.depot.specs.Forms.{form_of, made_for, forms_answer, forms_out, made_array};
ghost use Rattle.depot.specs.Depot.{begun_depot, form_ok, same_form, stored, stored_slots, stored_array};

use book::Book;
use list::{Pair, Source};

// An order form. Its key is all but the size: both editions, kind, contractor, profile and the two ids.
#[repr(C)]
#[derive(Clone, Copy, PartialEq, Eq)]
pub struct Form {
    pub p_edition: u32,
    pub q_edition: u32,
    pub own: bool,
    pub contractor: u32,
    pub grid: bool,
    pub q: u32,
    pub p: u32,
    pub size: u64,
}

// What making forms answers: 0 and how many were made, or the number of refusal and 0.
// Kept: the number beside the count, which `ring_forms` of crate ffi hands to C as it stands.
#[repr(C)]
#[derive(Clone, Copy)]
pub struct Made {
    pub number: u32,
    pub count: usize,
}

// The form of a pair of a list.
fn form_of(source: Source, v: Pair) -> Form
    ensures { result ≡ form_of source v }
{
    Form {
        p_edition: source.p_edition,
        q_edition: source.q_edition,
        own: source.terms.own,
        contractor: source.terms.contractor,
        grid: source.terms.grid,
        q: v.q,
        p: v.p,
        size: v.size,
    }
}

// All that is decided: 11 where more is held than there are slots, 16 where there is not room for as many forms, else how many are made.
fn decide(b: Book, len: usize, room: usize) -> Made
    ensures { result ≡ made_for b len room }
{
    if len < b.held {
        return Made {
            number: 11,
            count: 0,
        };
    }
    if room < b.held {
        return Made {
            number: 16,
            count: 0,
        };
    }
    Made {
        number: 0,
        count: b.held,
    }
}

// One form for each held pair of a book, in the first places of `out`; the rest of it isn't touched. Refused by 11, then by 16, and then nothing is touched.
pub fn forms(b: Book, slots: &[Pair], out: &mut [Form]) -> Made
    ensures { (result ≡ forms_answer b slots.now out.old) × (out.new ≡ forms_out b slots.now out.old) }
{
    let made = decide(b, slots.len(), out.len());
    for (k, v) in slots[..made.count].iter().enumerate() {
        out[k] = form_of(b.source, *v);
    }
    made
}

// The depot's state: how many forms it holds.
#[repr(C)]
#[derive(Clone, Copy)]
pub struct Depot {
    pub held: usize,
}

// What the depot says of a form that it does not refuse.
#[derive(Clone, Copy, Debug, PartialEq, Eq)]
pub enum Receipt {
    Issued,
    Known,
}

// The answer of `take`: what is said, or the number of refusal, and the depot from now on.
#[derive(Clone, Copy)]
pub struct Stored {
    pub outcome: Result<Receipt, u32>,
    pub depot: Depot,
}

// Whether each part of a form's key is in range.
fn is_form(f: Form) -> bool
    ensures { result ≡ form_ok f }
{
    words::is_edition(f.p_edition)
        & words::is_edition(f.q_edition)
        & (f.contractor <= 2)
        & words::is_id(f.q)
        & words::is_id(f.p)
}

// Whether two forms have one key.
fn is_met(f: Form, form: Form) -> bool
    ensures { result ≡ same_form f form }
{
    (f.p_edition == form.p_edition)
        & (f.q_edition == form.q_edition)
        & (f.own == form.own)
        & (f.contractor == form.contractor)
        & (f.grid == form.grid)
        & (f.q == form.q)
        & (f.p == form.p)
}

// Whether one of these forms has the key of `form`.
fn is_held(forms: &[Form], form: Form) -> bool
    ensures { result ≡ list_any (λ g. same_form g form) forms.now }
{
    forms.iter().any(|f| is_met(*f, form))
}

// All that is said of a form: it is known, new, or refused by 11, 15 or 16.
fn judge(d: Depot, slots: &[Form], form: Form) -> Result<Receipt, u32>
    ensures { result ≡ (stored d slots.now form).outcome }
{
    if slots.len() < d.held {
        return Err(11);
    }
    if !is_form(form) {
        return Err(15);
    }
    if is_held(&slots[..d.held], form) {
        return Ok(Receipt::Known);
    }
    if slots.len() <= d.held {
        return Err(16);
    }
    Ok(Receipt::Issued)
}

impl Depot {
    // A depot that holds nothing.
    pub fn begin() -> Depot
        ensures { result ≡ begun_depot }
    {
        Depot { held: 0 }
    }

    // A form with a new key is put behind the held ones; one whose key is held changes nothing. Refused by 11, 15, then 16 exactly for a new key with no slot left.
    pub fn take(self, slots: &mut [Form], form: Form) -> Stored
        ensures { (result ≡ stored self slots.old form) × (slots.new ≡ stored_slots self slots.old form) }
    {
        let outcome = judge(self, slots, form);
        if outcome == Ok(Receipt::Issued) {
            slots[self.held] = form;
            let depot = Depot {
                held: self.held + 1,
            };
            return Stored { outcome, depot };
        }
        Stored {
            outcome,
            depot: self,
        }
    }
}

// 64 places for forms, and what `forms` answered of those lent to it.
#[derive(Clone, Copy)]
pub struct MadeArray {
    pub out: [Form; 64],
    pub made: Made,
}

// 64 slots, and what `take` answered of those lent to it.
#[derive(Clone, Copy)]
pub struct StoredArray {
    pub slots: [Form; 64],
    pub stored: Stored,
}

// `forms` on the first `len` of 64 slots and the first `room` of 64 places, which are lent for the call; on all 64 where one exceeds that. For callers that keep them by value.
pub fn forms_array(
    slots: [Pair; 64],
    len: usize,
    out: [Form; 64],
    room: usize,
    b: Book,
) -> MadeArray
    ensures { result ≡ made_array slots len out room b }
{
    let mut own = out;
    let n = list::lent_of(64, len);
    let m = list::lent_of(64, room);
    let made = forms(b, &slots[..n], &mut own[..m]);
    MadeArray { out: own, made }
}

// `Depot::take` on the first `len` of 64 slots, which are lent for the call and come back; on all 64 where `len` exceeds that. For callers that keep their slots by value.
pub fn take_array(slots: [Form; 64], len: usize, d: Depot, form: Form) -> StoredArray
    ensures { result ≡ stored_array slots len d form }
{
    let mut own = slots;
    let n = list::lent_of(64, len);
    let stored = d.take(&mut own[..n], form);
    StoredArray { slots: own, stored }
}
