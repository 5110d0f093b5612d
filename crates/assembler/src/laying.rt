// The first pass: where each record's bytes go, and what each label names.
ghost use Rattle.std.specs.Prelude.{◌≡◌, None, IfOk};
ghost use Rattle.std.specs.Result.{result_err};
ghost use Rattle.text.specs.Layout.{start, is_label, misplaced, twice, marked_by, record_refusal, refused_at};
ghost use Rattle.assembler.specs.Listings.{laid_out, unlaid};

use crate::labels::Labels;
use crate::listings::Listing;
use crate::standing::Standing;
use crate::walks::Walk;
use isa::Refusal;
use listing::{Item, Section};
use text::Refused;

impl Standing {
    fn is_misplaced(&self) -> bool
        ensures { result ≡ misplaced self.now.item self.now.walk.place }
    {
        match (self.item, self.walk.place.section) {
            (Item::Words(_), Section::Text) => self.walk.place.text % 2 != 0,
            (Item::Words(_), Section::Data) => true,
            (Item::Word, _) => self.walk.end() % 2 == 1,
            _ => false,
        }
    }

    fn is_label(&self) -> bool
        ensures { result ≡ is_label self.now.item }
    {
        matches!(self.item, Item::Label)
    }

    // Whether the record defines a label that is already defined.
    fn is_twice(&self, labels: &Labels) -> bool
        ensures { result ≡ twice self.now.item labels.now.marks self.now.record }
    {
        self.is_label() && labels.get(self.record.label).is_some()
    }

    // Refuses a record that is against the rules, or cannot stand where it does.
    fn check(&self, labels: &Labels) -> Result<(), Refusal>
        ensures { result_err result ≡ record_refusal (record { place = self.now.walk.place; labels = labels.now.marks }) self.now.record }
    {
        self.record.check()?;
        if self.is_misplaced() {
            return Err(Refusal::Misplaced);
        }
        if self.is_twice(labels) {
            return Err(Refusal::Twice);
        }
        if self.measure.parted {
            return Err(Refusal::Parted);
        }
        Ok(())
    }

    // Lays the record out, or says why it cannot be.
    fn lay(&self, labels: &mut Labels) -> Result<(), Refused>
        ensures value { result_err result ≡ refused_at self.now.walk.index
            (record_refusal (record { place = self.now.walk.place; labels = labels.old.marks }) self.now.record) }
        ensures after { result_err result ≡ None → labels.new.marks ≡ marked_by self.now.item self.now.walk.place labels.old.marks self.now.record }
    {
        self.walk.indexed(self.check(labels))?;
        if self.is_label() {
            labels.define(self.record.label, self.walk.mark());
        }
        Ok(())
    }
}

// Lays all records out and answers the walk past them, or says which is the first that cannot be laid out.
pub(crate) fn lay_out(listing: Listing, labels: &mut Labels) -> Result<Walk, Refused>
    requires { labels.old.marks ≡ start.labels }
    ensures err { result_err result ≡ unlaid listing.entry.bytes.now }
    ensures ok { IfOk result (λ w. record { place = w.place; labels = labels.new.marks } ≡ laid_out listing.entry.bytes.now) }
{
    let mut walk = Walk::start();
    for bytes in listing.records() {
        let standing = Standing::read(walk, bytes).ok_or(walk.refused(Refusal::Operation))?;
        standing.lay(labels)?;
        walk = standing.next();
    }
    Ok(walk)
}
