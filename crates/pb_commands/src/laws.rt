//! Laws of the definitions.

ghost use Rattle.std.specs.Prelude.{◌≡◌, ◌≢◌, ◌↔◌, ◌⊎◌, ◌<◌, ◌≤◌, ◌==◌, ◌+◌, ◌-◌, ◌*◌, ◌++◌, ℕ, All, Bool, Contains, List};
ghost use Rattle.std.specs.Prelude.{[], ◌∷◌, ◌||◌, None, Option, Some, codes, count_by, decimal, false, filter};
ghost use Rattle.std.specs.Prelude.{if◌then◌else◌, length, map, max, slice_index, slice_index_or, true};
ghost use Rattle.std.specs.Bool.{MatchBool};
ghost use Rattle.std.specs.List.{range_with_len};
ghost use Rattle.std.specs.Str.{bytes_eq};
ghost use Rattle.pb_core.specs.Election.{ElectionView, IsElection};
ghost use Rattle.pb_core.specs.MoneyText.{money_text};
ghost use Rattle.pb_core.specs.Request.{EntryView, Cast, Replace, Shut};
ghost use Rattle.pb_desk.specs.Audit.{IsSound};
ghost use Rattle.pb_desk.specs.Desk.{DeskView, closed_election, standing_of};
ghost use Rattle.pb_desk.specs.Opening.{OpeningView};
ghost use Rattle.pb_desk.specs.Replay.{IsLegal, replay};
ghost use Rattle.pb_desk.specs.Rows.{journal_text, ScriptRowView};
ghost use Rattle.pb_desk.specs.Step.{step, voter_of};
ghost use Rattle.pb_read.specs.StandsFor.{StandsFor, most_records};
ghost use Rattle.pb_rows.specs.ExactText.{exact_text};
ghost use Rattle.pb_rows.specs.Reading.{records_of};
ghost use Rattle.pb_rows.specs.Writing.{text_of_row};
ghost use Rattle.pb_price.specs.Grain.{in_parts};
ghost use Rattle.pb_price.specs.Price.{total_rest};
ghost use Rattle.pb_price.specs.Supporters.{ballot_at, cost_at, support_of, supporters_at};
ghost use Rattle.pb_price.specs.declared.grain.Grain.{Grain};
ghost use Rattle.pb_reasons.specs.Counted.{CountedView, is_selected, winners_of};
ghost use Rattle.pb_reasons.specs.CountedElection.{CountedElectionView, IsCountIn, IsCountedElection, in_file};
ghost use Rattle.pb_reasons.specs.Reasons.{all_payments, paid_for, project_reason, voter_reason};
ghost use Rattle.pb_reasons.specs.declared.project_reason.Ending.TheVariants as ending;
ghost use Rattle.pb_rounds.specs.MostVotes.{is_taken, votes_at};
ghost use Rattle.pb_rounds.specs.Run.{ElectedView, is_elected};
ghost use Rattle.pb_rounds.specs.declared.rule.Rule.{Rule};
ghost use Rattle.pb_script.specs.ScriptFault.{at_row};
ghost use Rattle.pb_script.specs.ScriptReading.{fault_of_row};
ghost use Rattle.pb_script.specs.Scripts.{IsScript};
ghost use Rattle.pb_script.specs.Serving.{program_room};
ghost use Rattle.pb_script.specs.declared.admission.RowRefusal.{RowRefusal};
ghost use Rattle.pb_script.specs.declared.script_fault.ScriptFault.TheVariants.{NoMemory, ReadFailed};
ghost use Rattle.pb_script.specs.declared.script_fault.ScriptFault.TheVariants.{TooManyRows};
ghost use Rattle.pb_faults.specs.DeskRow.{entries_row};
ghost use Rattle.pb_faults.specs.Fault.{merged, told};
ghost use Rattle.pb_commands.specs.Audited.{AuditWrites, IsDeskOf, IsReport, IsTextOf};
ghost use Rattle.pb_commands.specs.Ballots.{last_given};
ghost use Rattle.pb_commands.specs.Closed.{Gives};
ghost use Rattle.pb_commands.specs.declared.demand.Demand.{Demand};
ghost use Rattle.pb_commands.specs.declared.demand.Demand.TheVariants.{Any};
ghost use Rattle.pb_commands.specs.DeskRun.{DeskWrites, admission_on};
ghost use Rattle.pb_commands.specs.declared.run_desk.Rules.{Rules};
ghost use Rattle.pb_commands.specs.Report.{report_of};
ghost use Rattle.pb_commands.specs.Tables.{IsTableOf};
ghost use Rattle.pb_commands.specs.declared.table.Table.TheVariants.{Report};

use pb_core::answer::Answer;
use pb_faults::AppFault;

/// What is written is a function of the bytes that are read and of the rule: a file has one report at
/// most, and a file and a journal have one text at most, and one table of ballots of each kind.
pub fn one_report()
    ensures counted { (bytes : List ℕ) (rule : Rule) (first second : List ℕ)
        → Gives (IsTableOf Report rule) bytes None first → Gives (IsTableOf Report rule) bytes None second
        → first ≡ second }
    ensures audited { (demand : Demand) (rule : Rule) (bytes journal first second : List ℕ)
        → AuditWrites demand (IsReport rule) bytes journal first
        → AuditWrites demand (IsReport rule) bytes journal second
        → first ≡ second }
    ensures ballots { (table : DeskView → List ℕ) (bytes journal first second : List ℕ)
        → ((d : DeskView) × IsDeskOf bytes journal d × (first ≡ table d))
        → ((d : DeskView) × IsDeskOf bytes journal d × (second ≡ table d)) → first ≡ second }
{}

/// The recount. For every file that stands for an election, and every legal journal of its desk that fits the
/// room: an audit of the journal's text on the file accepts it as this desk's, and writes just what is to be
/// written of this desk, its row and where it is shut the report of the ballots that its journal leaves. What
/// `desk` writes is the text of such a journal. So who recounts what `desk` wrote gets the desk's winners:
/// where such a desk is closed and counted, as `pb_closing` does it, the audit's report is that of this very
/// count.
pub fn journals_recount()
    ensures accepted { (bytes : List ℕ) (d : DeskView) → StandsFor (records_of bytes) d.opening.election
        → d.room ≡ program_room → IsSound d.opening d.room d.journal
        → IsDeskOf bytes (journal_text d.opening.version d.journal) d }
    ensures recounted { (bytes journal : List ℕ) (d : DeskView) (rule : Rule) (text : List ℕ)
        → IsDeskOf bytes journal d
        → AuditWrites Any (IsReport rule) bytes journal text ↔ IsTextOf (IsReport rule) d text }

    // What `desk` wrote is a desk's: each clerk's entries ask what its rows in the script do, in their order,
    // and no other entries stand there, but where the run shuts the desk one last entry by clerk 0, which
    // shuts it.
    ensures written { (rules : Rules) (bytes rows : List ℕ) (clerks : ℕ) (shuts : Bool) (journal : List ℕ)
        → DeskWrites rules bytes rows clerks shuts journal
        → (d : DeskView) × (script : List ScriptRowView) × (served : List EntryView)
        × IsDeskOf bytes journal d
        × IsScript (admission_on rules d.opening.election) clerks (records_of rows) script
        × ((clerk : ℕ) → clerk < clerks → map (λ x. x.request) (filter (λ x. x.clerk == clerk) served)
        ≡ map (λ x. x.request) (filter (λ x. x.clerk == clerk) script))
        × All (λ x. x.clerk < clerks) served
        × MatchBool shuts
        (((standing_of d).is_shut ≡ true) × (answer : Answer)
        × (d.journal ≡ served ++ record { clerk = 0; request = Shut; answer = answer } ∷ []))
        (d.journal ≡ served) }
    ensures winners { (d : DeskView) (rule : Rule) (x : CountedElectionView)
        → (standing_of d).is_shut ≡ true → IsCountIn rule (closed_election d) x
        → IsTextOf (IsReport rule) d (text_of_row (entries_row d) ++ report_of x) }
{}

/// What the number in a row of the table of ballots says. Of each ballot that a legal journal leaves on the
/// desk of an election: the entry with this number was done, and cast this very ballot for the voter or put
/// it in place of another; after it nothing was done for the voter. Where the row has no number, the ballot
/// is the file's, and nothing was done for the voter at all.
pub fn ballots_name_their_entries()
    ensures given { (o : OpeningView) (journal : List EntryView) (voter ballot : List ℕ) (number : ℕ)
        → IsElection o.election → IsLegal o journal → Contains (replay o journal).ballots (voter, ballot)
        → last_given voter journal ≡ Some number
        → (before : List EntryView) × (x : EntryView) × (after : List EntryView)
        × (journal ≡ before ++ x ∷ after) × (number ≡ length before + 1) × (x.answer ≡ Answer.Done)
        × ((x.request ≡ Cast voter ballot) ⊎ (x.request ≡ Replace voter ballot))
        × All (λ y. y.answer ≡ Answer.Done → y.request ≢ Shut → voter_of y.request ≢ voter) after }
    ensures own { (o : OpeningView) (journal : List EntryView) (voter ballot : List ℕ)
        → IsElection o.election → IsLegal o journal → Contains (replay o journal).ballots (voter, ballot)
        → last_given voter journal ≡ None
        → Contains o.election.voters (record { id = voter; ballot = ballot })
        × All (λ y. y.answer ≡ Answer.Done → y.request ≢ Shut → voter_of y.request ≢ voter) journal }
{}

/// The row that a script's fault names: the row which is refused; the next one, where the reader fails; the first
/// beyond the most that a script has; and 0, which is no row, where memory runs out.
pub fn rows_of_script_faults_are_their_words()
    ensures refused { (why : RowRefusal) (row : ℕ) → at_row (fault_of_row why row) ≡ row }
    ensures failed { (row : ℕ) → at_row (ReadFailed row) ≡ row }
    ensures too_many { at_row TooManyRows ≡ most_records + 1 }
    ensures memory { at_row NoMemory ≡ 0 }
{}

/// What a journal replays to: before any entry a desk is open, with the ballots of the election's voters, and each
/// entry more is one step.
pub fn replay_is_its_steps()
    ensures none { (o : OpeningView) → replay o []
        ≡ record { ballots = map (λ v. (v.id, v.ballot)) o.election.voters; is_shut = false } }
    ensures one_more { (o : OpeningView) (journal : List EntryView) (x : EntryView)
        → replay o (journal ++ x ∷ []) ≡ step o (replay o journal) x.request }
{}

/// How a project ended. If it is elected, the round is told that elected it, from 1, its price, rounded down and as it is,
/// what that collected, and how many of its supporters paid all of it, rounded down. Otherwise, if it is added, the number
/// by which it is; and if it is neither, what its supporters have left together, and what lacks to its cost in the parts
/// that are counted.
pub fn endings_are_their_words()
    ensures votes { (grain : Grain) (e : ElectionView) (c : CountedView) (place : ℕ)
        → (project_reason grain e c place).votes ≡ votes_at (support_of e) place }
    ensures won { (grain : Grain) (e : ElectionView) (c : CountedView) (before : List ElectedView) (w : ElectedView)
        → (later : List ElectedView) → c.outcome.elected ≡ before ++ w ∷ later
        → All (λ (v : ElectedView). v.place ≢ w.place) before
        → (project_reason grain e c w.place).ending ≡ ending.Won (record {
          round = length before + 1;
          price = w.price;
          exact = w.exact;
          collected = w.collected;
          in_full = count_by (λ voter. paid_for e c.outcome w.place voter == w.price)
              (supporters_at (support_of e) w.place);
        }) }
    ensures added { (grain : Grain) (e : ElectionView) (c : CountedView) (before : List ℕ) (place : ℕ) (later : List ℕ)
        → is_elected c.outcome.elected place ≡ false → c.added ≡ before ++ place ∷ later
        → All (λ other. other ≢ place) before
        → (project_reason grain e c place).ending ≡ ending.Added (record { number = length before + 1 }) }
    ensures lost { (grain : Grain) (e : ElectionView) (c : CountedView) (place : ℕ) → is_selected c place ≡ false
        → let left = total_rest (supporters_at (support_of e) place) c.outcome.rests in
        (project_reason grain e c place).ending
        ≡ ending.Lost (record {
          left = left;
          missing = in_parts grain (length e.voters) (cost_at (support_of e) place) - left;
        }) }
{}

/// What a voter's ballot came to in a count: how many projects it approves, how many of these won, what the voter has
/// left, and that this and what the voter paid are the share. The payments of a count are, for each of the elected in
/// order of election, what each voter paid for it.
pub fn voters_are_their_words()
    ensures votes { (e : ElectionView) (c : CountedView) (voter : ℕ)
        → (voter_reason e c voter).votes ≡ length (ballot_at e voter) }
    ensures won { (x : CountedElectionView) (voter : ℕ) → IsCountedElection x
        → (voter_reason x.election x.counted voter).elected
        ≡ count_by (is_taken (winners_of x.counted)) (ballot_at x.election voter) }
    ensures left { (e : ElectionView) (c : CountedView) (voter : ℕ)
        → (voter_reason e c voter).left ≡ slice_index c.outcome.rests voter }
    ensures paid { (x : CountedElectionView) (voter : ℕ) → IsCountedElection x → voter < length x.election.voters
        → (voter_reason x.election x.counted voter).paid + (voter_reason x.election x.counted voter).left
        ≡ x.counted.outcome.share }
    ensures payments { (x : CountedElectionView) → IsCountedElection x
        → let each = range_with_len 0 (length x.election.voters) in all_payments x.election x.counted.outcome
        ≡ map (λ w. map (paid_for x.election x.counted.outcome w.place) each) x.counted.outcome.elected }
{}

/// The order of the file: of the projects of a counted election all positions, such that their places in the file rise
/// from 0, one by one.
pub fn file_order_is_that_of_places()
    ensures { (x : CountedElectionView) → IsCountedElection x
        → All (λ position. position < length x.election.projects) (in_file x)
        × (map (slice_index x.order) (in_file x) ≡ range_with_len 0 (length x.election.projects)) }
{}

/// How an amount in hundredths that is divided, by 0 as by 1, stands as text. Whole hundredths are written as any amount
/// is. Any other amount is a fraction of a unit, p over q: of those that come to the same, with q above 0, the one with
/// the least q.
pub fn exact_amounts_are_their_words()
    ensures whole { (amount divisor hundredths : ℕ) → hundredths * max 1 divisor ≡ amount
        → exact_text amount divisor ≡ money_text hundredths }
    ensures fraction { (amount divisor p q : ℕ) → ((hundredths : ℕ) → hundredths * max 1 divisor ≢ amount)
        → 0 < q → p * (100 * max 1 divisor) ≡ amount * q
        → ((r s : ℕ) → 0 < s → r * (100 * max 1 divisor) ≡ amount * s → q ≤ s)
        → exact_text amount divisor ≡ decimal p ++ (codes "/" ++ decimal q) }
{}

/// Out of memory is one fault, whichever crate met it: each fault of which `NoMemory` is told by its name, or memory by
/// its line, is that one, and any other stays as it is.
pub fn out_of_memory_is_one_fault()
    ensures { (fault : AppFault) → let fields = (told fault).1 in
        merged fault ≡ (if bytes_eq (slice_index_or fields 2 []) (codes "NoMemory")
        || bytes_eq (slice_index_or fields 0 []) (codes "memory") then AppFault.Memory else fault) }
{}
