// A bundle whose size and header are right.
ghost use Rattle.std.specs.Prelude.{◌≡◌, true, IfOk};
ghost use Rattle.std.specs.Result.{result_err};
ghost use Rattle.causes.specs.Causes.{header_rules, all_kept, first_defect as defect_in};

use crate::check_records;
use crate::defect::Defect;
use layout::Layout;
use layout::section::Section;
use rules::RecordRule;

// The rules on the size and the header, which come first: the others are about sections that lie where they should.
const HEADER_RULES: [RecordRule; 9] = [
    RecordRule::Size,
    RecordRule::TemplateLimit,
    RecordRule::SectionStart(Section::Templates),
    RecordRule::SectionStart(Section::Blocks),
    RecordRule::SectionStart(Section::Codes),
    RecordRule::SectionStart(Section::Instructions),
    RecordRule::SectionStart(Section::Constants),
    RecordRule::SectionStart(Section::Text),
    RecordRule::BundleEnd,
];

#[derive(Clone, Copy)]
pub(crate) struct Headed<'b> {
    pub(crate) layout: Layout<'b>,
    ghost right: { all_kept layout.bytes.now header_rules ≡ true },
}

impl<'b> Headed<'b> {
    pub(crate) fn new(layout: Layout<'b>) -> Result<Headed<'b>, Defect>
        ensures defect { result_err result ≡ defect_in layout.entry.bytes.now header_rules }
        ensures same { IfOk result (λ h. h.layout.bytes.now ≡ layout.entry.bytes.now) }
    {
        check_records(layout, &HEADER_RULES)?;
        Ok(Headed { layout })
    }
}
