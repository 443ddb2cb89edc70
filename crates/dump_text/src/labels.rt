//! Labels that name their categories by numbers.
ghost use Rattle.std.specs.Prelude.{◌≡◌, IfSome, IfNone};
ghost use Rattle.label_lattice.specs.declared.raw_labels.RawLabel.{RawLabel as RawValue};
ghost use Rattle.dump_text.specs.Word.{spoken_label};

use base::Category;
use label_lattice::{Pair, Pairs, RawLabel};
use text_words::{Reference, SpokenLabel};

/// The label, where it names each category by its number.
pub fn numbered(label: &SpokenLabel) -> Option<RawLabel>
    ensures some { IfSome result (λ l. label.now ≡ spoken_label l) }
    ensures none { IfNone result ((l : RawValue) → label.now ≡ spoken_label l → ⊥) }
{
    let mut pairs = Pairs::new();
    for pair in label.pairs() {
        let Reference::Number(number) = pair.category else {
            return None;
        };
        pairs.push(Pair {
            category: Category(number),
            level: pair.level,
        });
    }
    Some(RawLabel {
        default: label.default(),
        pairs,
    })
}
