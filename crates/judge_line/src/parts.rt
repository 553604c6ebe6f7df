// Which of a file's words are the model, and which the table.
ghost use Rattle.std.specs.Prelude.{◌≡◌, ◌==◌, position};
ghost use Rattle.zone.specs.Words.{kind};
ghost use Rattle.judge_line.specs.Bytes.{model_part, table_part};

use model::table_kinds::TableKind;

/// The place of the first word of kind 7.
pub(crate) fn table_at(list: &[u32]) -> Option<usize>
    ensures { result ≡ position (λ word. kind word == 7) list.now }
{
    list.iter().position(|word| TableKind::Head.is(*word))
}

/// The model, which is what stands before that place, and the table, which begins there; without one all is the model, and the table is nothing.
#[tactic(auto, using(crate::proofs::PartLaws::before, crate::proofs::PartLaws::behind))]
pub(crate) fn parts(list: &[u32]) -> (&[u32], &[u32])
    ensures model { result.0.now ≡ model_part list.now }
    ensures table { result.1.now ≡ table_part list.now }
{
    list.split_at(table_at(list).unwrap_or(list.len()))
}
