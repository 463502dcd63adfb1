// Names that have to differ: those of the templates, and those of the blocks of one template.
ghost use Rattle.std.specs.Prelude.{◌≡◌, ◌+◌};
ghost use Rattle.layout.specs.Bounded.{first_not as first_not_below};
ghost use Rattle.layout.specs.Layout.{at, template, text};
ghost use Rattle.layout.specs.declared.records.Span.{Span};
ghost use Rattle.rules.specs.Rules.{template_name, block_name, new_name};

use layout::Layout;
use layout::below::{each, first_not};
use layout::record::Record;
use layout::records::{BlockRecord, Span, TemplateRecord};

// A record that has a name in the text section.
trait Named: Record {
    ghost name_of: { Self → Span };

    fn name(self) -> Span
        ensures { result ≡ name_of self };
}

impl Named for TemplateRecord {
    ghost name_of = { λ r. r.name };

    fn name(self) -> Span {
        self.name
    }
}

impl Named for BlockRecord {
    ghost name_of = { λ r. r.name };

    fn name(self) -> Span {
        self.name
    }
}

// The name of the record that stands `place` records after the record `first`.
fn name_from<'b, R: Named>(layout: Layout<'b>, first: u32, place: u32) -> &'b [u8]
    ensures { result.now ≡ text layout.entry.bytes.now (R.name_of (R.fields_at layout.entry.bytes.now (at layout.entry.bytes.now R.section (first + place)))) }
{
    layout.text(layout.record_from::<R>(first, place).name())
}

// Whether none of the records from `first` on that stand before this place has the name of the record there.
fn is_new<R: Named>(layout: Layout<'_>, first: u32, place: u32) -> bool
    ensures { result ≡ new_name (λ k. text layout.entry.bytes.now (R.name_of (R.fields_at layout.entry.bytes.now (at layout.entry.bytes.now R.section (first + k))))) place }
{
    let name = name_from::<R>(layout, first, place);
    each(
        place,
        |earlier| name_from::<R>(layout, first, earlier) != name,
    )
}

// Whether no template before this one has its name.
pub(crate) fn is_new_template(layout: Layout<'_>, number: u32) -> bool
    ensures { result ≡ new_name (template_name layout.entry.bytes.now) number }
{
    is_new::<TemplateRecord>(layout, 0, number)
}

// The first place among the blocks of a template whose name an earlier one of its blocks has.
pub fn first_repeated_block(layout: Layout<'_>, number: u32) -> Option<u32>
    ensures { result ≡ first_not_below (template layout.entry.bytes.now number).blocks.count (new_name (λ k. block_name layout.entry.bytes.now ((template layout.entry.bytes.now number).blocks.first + k))) }
{
    let blocks = layout.record::<TemplateRecord>(number).blocks;
    first_not(
        blocks.count,
        |place| is_new::<BlockRecord>(layout, blocks.first, place),
    )
}
