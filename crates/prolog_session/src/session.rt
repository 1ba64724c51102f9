// The whole program: words and text in, status and text out.
ghost use Rattle.std.specs.Prelude.{◌≡◌, ◌≤◌, ◌<◌, ◌⊎◌, ◌^◌, [], ◌++◌, length, map, string_bytes, Some, None, IsSome, IsNone, IfSome, Any, All};
ghost use Rattle.std.specs.Io.KnownBytes.{Appends, IsAtEnd, Keeps};
ghost use Rattle.journal_base.specs.Legal.{Legal};
ghost use Rattle.prolog_session.specs.FaultCounts.{Rose};
ghost use Rattle.prolog_session.specs.WholeText.{max_text};
ghost use Rattle.prolog_session.specs.Sinks.{AppendsPrefix};
ghost use Rattle.prolog_session.specs.Load.{IsLoadOf, operators_of, refusal_of};
ghost use Rattle.prolog_session.specs.Words.{command_of};
ghost use Rattle.prolog_session.specs.Runs.{EndsInBall, EndsSpent};
ghost use Rattle.prolog_session.specs.Errors.{bad_words_text, source_text, too_long_text, refusal_text};
ghost use Rattle.prolog_session.specs.Output.{load_text, output_of};
ghost use Rattle.prolog_session.specs.Headline.{IsRun, HasRuns, IsLoaded, IsEmpty, IsStatus, expected, Ends, IsTooLong, AreRunsOf, HasRun, Under, HasRefused, Gains, HasBegun};

use crate::finish::{Outcome, finish};
use crate::prepare::prepare;
use crate::{Sink, Source};
use journal_base::{Gate, Sizes};
use std::alloc::Global;
use std::sync::Wait;
use std::thread::Threads;

/// Reads the whole source and loads it into a base of these sizes: its clauses are added, its operators and its dynamic
/// procedures declared and its goals run, those that are kept after the last read-term. Then the goal of the words is run, and the answers are written. What the
/// load can't add, what has no room and a directive that raises an error have a run that ends in the error, and the load goes
/// on. The status is 0, 1 or 7 after the runs (1 where one ends in a ball, else 7 where one has spent its budget), and else the
/// number of what went wrong: 2 bad words, 3 a read-term that is refused, 4 the source failed, 5 the sink failed, 6 memory was
/// wanted, 8 the text is too long.
pub fn top<R: Threads + Wait + Sync, S: Source, K: Sink, G: Gate + Sync>(
    rt: &R,
    alloc: Global,
    words: &[String],
    sizes: Sizes,
    source: &mut S,
    sink: &mut K,
    gate: &G,
) -> Outcome
    requires words { (1 ≤ sizes.words) × (sizes.words ≤ 2 ^ 30) }
    requires updates { (1 ≤ sizes.updates) × (sizes.updates < 2 ^ 24) }

    // Each status has its cause.
    ensures bad_words { result.status ≡ 2 → IsNone (command_of (map string_bytes words.now)) }
    ensures source_failed { result.status ≡ 4 → Rose (S.faults source.old) (S.faults source.new) }
    ensures too_long { result.status ≡ 8 → IfSome (S.left source.old) (λ text. max_text < length text) }
    ensures refused { result.status ≡ 3 → IfSome (S.left source.old) (λ text. IsSome (refusal_of text)) }
    ensures sink_failed { result.status ≡ 5 → Rose (K.faults sink.old) (K.faults sink.new) }
    ensures ball { result.status ≡ 1 → Any EndsInBall result.runs }
    ensures spent { result.status ≡ 7 → All (λ run. EndsInBall run → ⊥) result.runs × Any EndsSpent result.runs }
    ensures exhausted { result.status ≡ 0 → All (λ run. EndsInBall run → ⊥) result.runs × All (λ run. EndsSpent run → ⊥) result.runs }

    // And each cause has its status, unless memory is wanted, the source fails or the sink fails.
    ensures bad_words_only { IsNone (command_of (map string_bytes words.now)) → (result.status ≡ 2) ⊎ (result.status ≡ 6) }
    ensures complete { IfSome (S.left source.old) (λ text. Ends (expected (command_of (map string_bytes words.now)) text result.runs)
        (Rose (S.faults source.old) (S.faults source.new)) (Rose (K.faults sink.old) (K.faults sink.new)) result.status) }

    // The journal begins with the load's, and the runs with the load's runs; behind them are the goal's run over that journal, and
    // the entries that it made. The journal is legal. Each goal of the text and that of the words has the steps of the words at
    // most.
    ensures loaded { HasRuns result.status → Under result.ops (HasRun sizes (command_of (map string_bytes words.now)) (S.left source.old) (S.left source.new) result.journal result.runs) }
    ensures loaded_in_part { result.status ≡ 3 → Under result.ops (HasRefused sizes (command_of (map string_bytes words.now)) (S.left source.old) (S.left source.new)
        result.journal result.runs (Rose (K.faults sink.old) (K.faults sink.new)) (K.written sink.old) (K.written sink.new)) }
    ensures operators { IsLoaded result.status → IfSome (S.left source.old) (λ text. result.ops ≡ Some (operators_of text)) }
    ensures legal { IsLoaded result.status → Legal sizes.words sizes.updates result.journal }
    ensures runs { HasRuns result.status → IfSome (S.left source.old) (λ text. IfSome (command_of (map string_bytes words.now)) (λ command.
        AreRunsOf sizes text command result.journal result.runs)) }
    ensures load_runs { result.status ≡ 3 → IfSome (S.left source.old) (λ text. IfSome (command_of (map string_bytes words.now)) (λ command.
        IsLoadOf sizes command.steps text result.journal result.runs)) }
    ensures empty_journal { IsEmpty result.status → result.journal ≡ [] }
    ensures empty_runs { IsEmpty result.status → result.runs ≡ [] }
    ensures no_operators { IsEmpty result.status → result.ops ≡ None }

    // What the sink gained.
    ensures output { IsRun result.status → Under result.ops (λ ops. Appends (K.written sink.old) (K.written sink.new) (output_of ops result.runs)) }
    ensures output_cut { result.status ≡ 5 → Under result.ops (λ ops. AppendsPrefix (K.written sink.old) (K.written sink.new) (output_of ops result.runs)) }
    ensures output_told { IsRun result.status → IfSome (S.left source.old) (λ text. Appends (K.written sink.old) (K.written sink.new) (output_of (operators_of text) result.runs)) }
    ensures bad_words_text { result.status ≡ 2 → Gains (Rose (K.faults sink.old) (K.faults sink.new)) (K.written sink.old) (K.written sink.new) bad_words_text }
    ensures source_text { result.status ≡ 4 → Gains (Rose (K.faults sink.old) (K.faults sink.new)) (K.written sink.old) (K.written sink.new) source_text }
    ensures too_long_text { result.status ≡ 8 → Gains (Rose (K.faults sink.old) (K.faults sink.new)) (K.written sink.old) (K.written sink.new) too_long_text }
    ensures refusal_text { result.status ≡ 3 → IfSome (S.left source.old) (λ text. IfSome (refusal_of text) (λ refusal.
        Gains (Rose (K.faults sink.old) (K.faults sink.new)) (K.written sink.old) (K.written sink.new) (load_text (operators_of text) result.runs ++ refusal_text refusal))) }
    ensures wanted { result.status ≡ 6 → Appends (K.written sink.old) (K.written sink.new) []
        ⊎ HasBegun sizes (command_of (map string_bytes words.now)) (Rose (S.faults source.old) (S.faults source.new))
        (S.left source.old) (S.left source.new) (K.written sink.old) (K.written sink.new) }

    // What is left of the source, and the counts.
    ensures unread { result.status ≡ 2 → Keeps (S.left source.old) (S.left source.new) }
    ensures too_long_read { result.status ≡ 8 → IsTooLong (S.left source.old) (S.left source.new) }
    ensures read { IsLoaded result.status → IsAtEnd (S.left source.new) }
    ensures source_later { S.faults source.old ≤ S.faults source.new }
    ensures sink_later { K.faults sink.old ≤ K.faults sink.new }

    // There is no other status.
    ensures statuses { IsStatus result.status }
{
    let prepared = prepare(rt, alloc, words, sizes, source, gate);
    finish(alloc, sink, prepared)
}
