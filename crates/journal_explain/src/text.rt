//! Calls, explained from a journal's text.
ghost use Rattle.std.specs.Prelude.{◌≡◌, ◌≤◌};
ghost use Rattle.poa_policy.specs.Kept.{KeepsRules};
ghost use Rattle.journal_explain.specs.Explaining.{ExplainsFront, ExplainsText, HasRoom};

use crate::explainer::Explainer;
use crate::explanation::Explanation;
use crate::lines::hear_lines;
use crate::selection::Selection;
use poa_base::Config;
use poa_journal::{JournalFault, Opening, read_head, read_rows};
use std::alloc::Global;
use text_words::next_line;

/// Explains the calls that are asked for by the journal of a text, which is audited as one of a run of this configuration,
/// which keeps its rules, that takes so many calls. The run's number and what was stored before it are the journal's own.
/// `BadLine`: this line is the first that is none of a journal's.
pub fn explain_text(
    alloc: Global,
    config: Config,
    limit: u64,
    text: &[u8],
    asked: Selection,
) -> Result<Explanation, JournalFault>
    requires rules { KeepsRules config }
    requires limit { limit ≤ 4000000 }
    ensures { ExplainsText config limit asked text.now result }
{
    let Some((head, rest)) = next_line(text) else {
        return Err(JournalFault::BadLine { line: 1 });
    };
    let run = read_head(alloc, head)?;
    let opening = read_rows(alloc, rest, 2)?;
    explain_entries(alloc, config, limit, run, opening, asked)
}

/// Explains them by the entries behind the rows.
fn explain_entries(
    alloc: Global,
    config: Config,
    limit: u64,
    run: u32,
    opening: Opening<'_>,
    asked: Selection,
) -> Result<Explanation, JournalFault>
    requires rules { KeepsRules config }
    requires limit { limit ≤ 4000000 }
    requires room { HasRoom opening }
    ensures { ExplainsFront config limit asked run opening.entry result }
{
    let first_line = opening.line;
    let mut explainer = Explainer::new(alloc, config, run, opening.store, limit, asked)?;
    let heard = hear_lines(alloc, &mut explainer, first_line, opening.rest);
    let found = found_by(explainer, first_line);
    heard?;
    Ok(found)
}

/// What an explainer found; all else is let go.
fn found_by(explainer: Explainer, first_line: u64) -> Explanation
    ensures line { result.first_line ≡ first_line }
    ensures refusal { result.refusal ≡ explainer.auditor.refusal }
    ensures watch { result.watch ≡ explainer.watch }
{
    let Explainer { auditor, watch, .. } = explainer;
    Explanation {
        first_line,
        refusal: auditor.refusal,
        watch,
    }
}
