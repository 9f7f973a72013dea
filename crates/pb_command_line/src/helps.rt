//! What the helps say besides the commands and their arguments.

/// What the program is.
pub(crate) const ABOUT: &str =
    "Participatory budgeting by the Method of Equal Shares: counts the ballots of a .pb file, runs a desk for ballots, and checks the desk's journal";

/// What stands below the commands.
pub(crate) const AFTER_HELP: &str =
    "Without a command, the program counts the .pb file that it gets on standard input, like pb_app count -.

Words:
  desk        takes requests of clerks, and answers each, until a clerk shuts it
  request     what a clerk asks of the desk: cast, replace or withdraw a voter's ballot, or shut the desk
  journal     a file with every request that the desk answered, and its answer, in order
  script      a file of requests, one on each row
  share       the money that each voter can spend: at first the budget divided by the number of voters
  price       the most that one supporter pays for a project
  measure     which project wins next: with --measure votes the one whose price is lowest; with --measure cost the one
              whose price, divided by its cost, is lowest
  completion  what is done with money that is left
  raise       adds 1.00 (or what --step says) to every voter's share; then all is counted again, so that less money is left (Add1)

Which rule your city has:
  If your city uses the Method of Equal Shares, its rule is probably --measure cost --completion add1u.
  Then use these two options with every command that counts. Without them the program uses --measure votes --completion add1.
  If your city does not use this method, its rule is probably that the projects with the most votes win:
  --rule most-votes. The command pb_app compare shows the result of that rule beside the result of Equal Shares.
  If the by-law says that the result of Equal Shares applies unless more voters do better by most votes, add --decide choices
  (or --decide worth) to count, audit, projects, voters, page and export.
  A by-law should name the measure, the completion, the step of a raise, and how ties are broken.

Examples:
  pb_app check city.pb
  pb_app count city.pb
  pb_app count city.pb --step 1000 --output city.report
  pb_app compare city.pb --measure cost --completion add1u
  pb_app desk city.pb requests.script --clerks 2 --output trial.journal
  pb_app audit city.pb city.journal --require-shut
  pb_app serve city.pb city.journal < requests.script

Exit status:
  0  the whole result was written
  1  a file, script, journal or count was refused
  2  the arguments were refused
  3  a file could not be opened or written, a device failed, or memory ran out

If a file, script, journal or count is refused, one line on standard output says so, for programs. Standard error explains
each refusal in words.

Manual pages (they come with the package):
  man pb_app-count     one such page for each command
  man pb_app-election  the .pb file
  man pb_app-journal   the journal
  man pb_app-faults    what to do about each fault
  man pb_app-counting  how the count works
  man pb_app-office    the days of an election office";

/// What stands below the arguments of `serve`.
pub(crate) const AFTER_SERVE: &str =
    "Standard input has one request on each row, in the form CLERK;REQUEST;VOTER;PLACES:
  CLERK    the clerk's number; 0 if there is only one
  REQUEST  cast, replace, withdraw or shut
  VOTER    the voter's id; empty for shut
  PLACES   the positions of the projects in FILE, counted from 0, with `,` between them; empty for withdraw and shut

For example:
  0;cast;ann;0,2
  0;replace;ann;1
  0;withdraw;ann;

When the voting is over, the row 0;shut;; shuts the desk. That is final: no row opens it again.

The answer to a request is its row of the journal, printed as soon as that row is on the disk. Its last field says what
came of the request:
  done             it was carried out
  desk-shut        not carried out: the desk is shut
  unknown-place N  not carried out: no project has the position N
  too-long         not carried out: the ballot names more projects than FILE allows
  already-cast     cast not carried out: the voter has a ballot already
  voter-limit      cast not carried out: the desk has 1,000,000 ballots
  no-ballot        replace or withdraw not carried out: the voter has no ballot

With --by-id, standard error at a terminal also says each answer in words, with the voter and the ids of the projects.

A refused row is not recorded. Its answer is fault;script;CODE;NAME;ROW. Standard error explains it in words. If the
requests come from a file or from another program, it explains only the first five rows that are not valid requests.

Why a row is refused:
  2;BadRow     the row is not a valid request: see the form above
  5;UnknownId  with --by-id: no project has this id
  6;NotOnRoll  with --roll: the voter is not on the roll
  7;TooFew     with --min: the ballot names too few projects
  8;FromFile   with --keep-file-ballots: the voter's ballot came with FILE
  9;NoShut     with --no-shut: the row shuts the desk

The output begins with the row entries;N;open or entries;N;shut: the journal has N entries. A crash may leave an empty
line at the journal's end, and rows behind it, which were never answered. serve moves these rows to JOURNAL.torn, and
prints the row torn;BYTES first. BYTES is how many bytes it moved. A journal that ends within a row, such as a copy that
broke off, is refused: get the whole file.

JOURNAL.file says to which .pb file the journal belongs: its first line is the SHA-256 of FILE. With another FILE, a
position may mean another project. So once the journal has entries, serve refuses any other file (fault;other-file).
--other-file makes it accept one. Use this only if all projects of the old file are in FILE, in the same order. Their names
and costs may differ. New projects may only come after the old ones.

Examples:
  pb_app serve city.pb city.journal
  pb_app serve city.pb city.journal < requests.script > answers
  pb_app serve city.pb city.journal --by-id --roll voters.csv --min 1
  pb_app serve city.pb city.journal < /dev/null

Exit status:
  0  all rows were taken
  1  a row, FILE, JOURNAL or ROLL was refused
  2  the arguments were refused
  3  a file could not be opened or written, a device failed, memory ran out, or another serve is using JOURNAL
     (fault;locked;2)

Manual pages: man pb_app-script, man pb_app-journal, man pb_app-office.";

/// What stands below the arguments of `ballots`.
pub(crate) const AFTER_BALLOTS: &str =
    "Each row is voter_id;entry;project_ids. The second field, `entry`, is the number of the journal's entry that gave the
ballot, counted from 1. If it is empty, the ballot is still the one in FILE. The third field, `project_ids`, has the ids
of the ballot's projects, with `,` between them. You can run this command while pb_app serve is using JOURNAL.

With --history, each row is number;clerk;request;places;answer;has;ballot: an entry of the journal for this voter, and what
the voter had after it. `has` is 1 if the voter had a ballot, which may name no project, and 0 if not. `ballot` has the
positions of its projects. The first row has the number 0, and what the voter has in FILE.

The table shows who votes for what. If --output creates a new file, only you can read that file.

Examples:
  pb_app ballots city.pb city.journal
  pb_app ballots city.pb city.journal --voter ann
  pb_app ballots city.pb city.journal --voter ann --history

Manual pages: man pb_app-election, man pb_app-journal, man 5 pb_app-ballots.";
