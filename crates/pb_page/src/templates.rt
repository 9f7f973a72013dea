//! The pieces of a page. Values stand in the places of `~`. Each number that the report or a table has stands in a
//! `<data>` with its text as `value`, and its name there as `class`, and is shown as people write it. What is said
//! between them is in the table of sentences.

/// The start of a page, up to its head. Values: the language, and its direction.
pub(crate) const HEAD_OPENING: &str = "<!DOCTYPE html>
<html lang='~' dir='~'>
<head>
";

/// The title, up to how the page looks. Value: the title.
pub(crate) const TITLE: &str = "<title>~</title>
<style>";

/// What stands behind that, up to the sentences on the whole. Value: the title.
pub(crate) const TOP: &str = "</style>
</head>
<body>
<header>
<h1 dir='auto'>~</h1>
";

/// What stands before the first sentence on the whole, between the two, and behind them.
pub(crate) const LEAD: &str = "<p class='lead'>";

pub(crate) const LEAD_NEXT: &str = "</p>
<p class='lead'>";

pub(crate) const LEAD_CLOSING: &str = "</p>
";

/// The head of the contents. Value: what they are called.
pub(crate) const CONTENTS_OPENING: &str = "<nav aria-label='~'>
<ul>
";

/// A link to a section. Values: the section's name, and its heading.
pub(crate) const CONTENTS_LINK: &str = "<li><a href='#~'>~</a></li>
";

/// The end of the contents.
pub(crate) const CONTENTS_CLOSING: &str = "</ul>
</nav>
";

/// What stands before the sections.
pub(crate) const MAIN: &str = "</header>
<main>
";

/// A text alone. Value: the text.
pub(crate) const TEXT: &str = "~";

/// A number or an amount. Values: its name, the number for programs, and as it is shown.
pub(crate) const FIGURE: &str = "<data class='~' value='~'>~</data>";

/// An amount without a name. Values: the amount for programs, and as it is shown.
pub(crate) const NAMELESS: &str = "<data value='~'>~</data>";

/// What programs read of a page on which no project won, before the sentence on that. Values: how many won;
/// what was spent; what was paid beyond that or is left uncovered, by its name.
pub(crate) const NOTHING: &str =
    "<data class='won' value='~'></data><data class='spent' value='~'></data><data class='~' value='~'></data>";

/// The head of the picture of the budget, up to its words for those who can't see it. Value: the heading.
pub(crate) const BUDGET_OPENING: &str = "<section aria-labelledby='budget'>
<h2 id='budget'>~</h2>
<figure>
<div class='budget' role='img' aria-label='";

/// What stands before the winners' parts.
pub(crate) const BLOCKS_OPENING: &str = "'>
";

/// A winner's part of the budget. Values: where it begins and how wide it is, in ten thousandths; what it is
/// called, its cost, and its id.
pub(crate) const BUDGET_PART: &str =
    "<span style='--from:~;--wide:~' title='~: ~'><bdi dir='auto'>~</bdi></span>
";

/// What stands behind them, before the caption.
pub(crate) const BLOCKS_CLOSING: &str = "</div>
<figcaption>";

/// What stands behind the caption.
pub(crate) const BUDGET_CLOSING: &str = "</figcaption>
</figure>
</section>
";

/// The head of the column of categories in a table of projects. Value: the head.
pub(crate) const HEAD_CATEGORY: &str =
    "<th role='columnheader' scope='col' class='category'>~</th>";

/// What stands behind the heads of the columns of such a table.
pub(crate) const HEAD_CLOSING: &str = "</tr></thead>
<tbody role='rowgroup'>
";

/// The category of a project, in its row. Values: the label, and the category.
pub(crate) const ROW_CATEGORY: &str = "<td role='cell' data-label='~'><bdi dir='auto'>~</bdi></td>";

/// The head of the section on which rule applies. Value: the heading.
pub(crate) const DECIDED_OPENING: &str = "<section aria-labelledby='decided'>
<h2 id='decided'>~</h2>
";

/// The start of a project's row, up to its cells, and its end. Values: its place in the file, and its id.
pub(crate) const ROW_OPENING: &str = "<tr role='row' id='p-~' data-project='~'>";

pub(crate) const ROW_CLOSING: &str = "</tr>
";

/// The head of the table of winners, up to its last column. Values: its heading and caption, and the heads of
/// its columns.
pub(crate) const WINNERS_OPENING: &str = "<section class='won' aria-labelledby='winners'>
<h2 id='winners'>~</h2>
<table class='wide' role='table'>
<caption role='caption'>~</caption>
<thead role='rowgroup'><tr role='row'><th role='columnheader' scope='col' class='n round'>~</th><th role='columnheader' scope='col'>~</th><th role='columnheader' scope='col' class='n'>~</th><th role='columnheader' scope='col' class='n'>~</th><th role='columnheader' scope='col' class='n'>~</th><th role='columnheader' scope='col' class='n'>~</th>";

/// The cells of a winner. Values: round with its label, id, name, width of its bar, cost, votes, price, how
/// many paid it in full, each of these with its label before it; each number also as it is shown.
pub(crate) const WINNER: &str =
    "<td role='cell' class='n' data-label='~'><data class='round' value='~'>~</data></td><th role='rowheader' scope='row'><span class='id' dir='auto'>~</span> <bdi dir='auto'>~</bdi><svg class='bar' viewBox='0 0 10000 1' preserveAspectRatio='none' aria-hidden='true'><rect width='~' height='1'/></svg></th><td role='cell' class='n' data-label='~'><data class='cost' value='~'>~</data></td><td role='cell' class='n' data-label='~'><data class='votes' value='~'>~</data></td><td role='cell' class='n' data-label='~'><data class='price' value='~'>~</data></td><td role='cell' class='n' data-label='~'><data class='in_full' value='~'>~</data></td>";

/// The same where votes alone decide: instead of the round the number, and what was paid is left out.
pub(crate) const WON_BY_VOTES_OPENING: &str = "<section class='won' aria-labelledby='winners'>
<h2 id='winners'>~</h2>
<table class='wide' role='table'>
<caption role='caption'>~</caption>
<thead role='rowgroup'><tr role='row'><th role='columnheader' scope='col' class='n round'>~</th><th role='columnheader' scope='col'>~</th><th role='columnheader' scope='col' class='n'>~</th><th role='columnheader' scope='col' class='n'>~</th>";

/// The winners where there are none. Values: the heading, and that.
pub(crate) const NONE_WON: &str = "<section aria-labelledby='winners'>
<h2 id='winners'>~</h2>
<p>~</p>
</section>
";

/// The head of the table of the added, up to its last column. Values: its heading and caption, and the heads
/// of its columns.
pub(crate) const ADDED_OPENING: &str = "<section class='won' aria-labelledby='added'>
<h2 id='added'>~</h2>
<table class='wide' role='table'>
<caption role='caption'>~</caption>
<thead role='rowgroup'><tr role='row'><th role='columnheader' scope='col' class='n round'>~</th><th role='columnheader' scope='col'>~</th><th role='columnheader' scope='col' class='n'>~</th><th role='columnheader' scope='col' class='n'>~</th>";

/// The cells of an added project. Values: number with its label, id, name, width of its bar, cost and votes
/// with their labels; each number also as it is shown.
pub(crate) const ADDED: &str =
    "<td role='cell' class='n' data-label='~'><data class='added' value='~'>~</data></td><th role='rowheader' scope='row'><span class='id' dir='auto'>~</span> <bdi dir='auto'>~</bdi><svg class='bar' viewBox='0 0 10000 1' preserveAspectRatio='none' aria-hidden='true'><rect width='~' height='1'/></svg></th><td role='cell' class='n' data-label='~'><data class='cost' value='~'>~</data></td><td role='cell' class='n' data-label='~'><data class='votes' value='~'>~</data></td>";

/// The head of the table of the others, up to its last column. Values: its heading and caption, and the heads
/// of its columns.
pub(crate) const OTHERS_OPENING: &str = "<section class='lost' aria-labelledby='others'>
<h2 id='others'>~</h2>
<table class='wide' role='table'>
<caption role='caption'>~</caption>
<thead role='rowgroup'><tr role='row'><th role='columnheader' scope='col'>~</th><th role='columnheader' scope='col' class='n'>~</th><th role='columnheader' scope='col' class='n'>~</th><th role='columnheader' scope='col' class='n'>~</th><th role='columnheader' scope='col' class='n'>~</th>";

/// The same where votes alone decide: what supporters have left, and what is missing, are left out.
pub(crate) const PASSED_OVER_OPENING: &str = "<section class='lost' aria-labelledby='others'>
<h2 id='others'>~</h2>
<table class='wide' role='table'>
<caption role='caption'>~</caption>
<thead role='rowgroup'><tr role='row'><th role='columnheader' scope='col'>~</th><th role='columnheader' scope='col' class='n'>~</th><th role='columnheader' scope='col' class='n'>~</th>";

/// A project that did not win, where votes alone decide. Values: id, name, and cost and votes with their labels, each
/// of both also as it is shown.
pub(crate) const PASSED_OVER: &str =
    "<th role='rowheader' scope='row'><span class='id' dir='auto'>~</span> <bdi dir='auto'>~</bdi></th><td role='cell' class='n' data-label='~'><data class='cost' value='~'>~</data></td><td role='cell' class='n' data-label='~'><data class='votes' value='~'>~</data></td>";

/// The head of a project that did not win, up to where the money of its supporters went. Values: id, name, and
/// width of its bar.
pub(crate) const OTHER_OPENING: &str =
    "<th role='rowheader' scope='row'><span class='id' dir='auto'>~</span> <bdi dir='auto'>~</bdi><svg class='bar' viewBox='0 0 10000 1' preserveAspectRatio='none' aria-hidden='true'><rect width='~' height='1'/></svg>";

/// The head of where it went, and its end. Value: what it is called.
pub(crate) const WENT_OPENING: &str = "<details><summary>~</summary><ul>
";

pub(crate) const WENT_CLOSING: &str = "</ul>
</details>";

/// A link to the row of a project. Values: its place in the file, its id and its name.
pub(crate) const PROJECT_LINK: &str =
    "<a href='#p-~'><span class='id' dir='auto'>~</span> <bdi dir='auto'>~</bdi></a>";

/// The cells behind that head, up to what is said of what is missing. Values: cost, votes and what its supporters
/// have left, with their labels, each also as it is shown; the label of what is missing, and that for programs.
pub(crate) const OTHER: &str =
    "</th><td role='cell' class='n' data-label='~'><data class='cost' value='~'>~</data></td><td role='cell' class='n' data-label='~'><data class='votes' value='~'>~</data></td><td role='cell' class='n' data-label='~'><data class='left' value='~'>~</data></td><td role='cell' class='n' data-label='~'><data class='missing' value='~'>";

/// What stands behind that.
pub(crate) const OTHER_CLOSING: &str = "</data></td>";

/// The other projects where there are none. Values: the heading, and that.
pub(crate) const NONE_LOST: &str = "<section aria-labelledby='others'>
<h2 id='others'>~</h2>
<p>~</p>
</section>
";

/// The end of a table.
pub(crate) const TABLE_CLOSING: &str = "</tbody>
</table>
</section>
";

/// The head of the table of categories. Values: its heading and caption, and the heads of its columns.
pub(crate) const CATEGORIES_OPENING: &str =
    "<section class='won money' aria-labelledby='categories'>
<h2 id='categories'>~</h2>
<table class='wide' role='table'>
<caption role='caption'>~</caption>
<thead role='rowgroup'><tr role='row'><th role='columnheader' scope='col'>~</th><th role='columnheader' scope='col' class='n'>~</th><th role='columnheader' scope='col' class='n'>~</th></tr></thead>
<tbody role='rowgroup'>
";

/// A category. Values: what it is called, width of its bar, how many winners are of it and what these cost,
/// each of these two with its label before it, and as it is shown behind it.
pub(crate) const CATEGORY: &str =
    "<tr role='row'><th role='rowheader' scope='row'><bdi dir='auto'>~</bdi><svg class='bar' viewBox='0 0 10000 1' preserveAspectRatio='none' aria-hidden='true'><rect width='~' height='1'/></svg></th><td role='cell' class='n' data-label='~'><data class='category_won' value='~'>~</data></td><td role='cell' class='n' data-label='~'><data class='category_cost' value='~'>~</data></td></tr>
";

/// The head of what the voters got. Value: the heading.
pub(crate) const VOTERS_OPENING: &str = "<section class='many' aria-labelledby='voters'>
<h2 id='voters'>~</h2>
";

/// The head of the histogram. Values: its caption, and the heads of its columns.
pub(crate) const VOTERS_TABLE: &str = "<table role='table'>
<caption role='caption'>~</caption>
<thead role='rowgroup'><tr role='row'><th role='columnheader' scope='col'>~</th><th role='columnheader' scope='col' class='n'>~</th></tr></thead>
<tbody role='rowgroup'>
";

/// A row of the histogram, up to what is said of so many winners. Value: winners.
pub(crate) const VOTERS_ROW: &str =
    "<tr role='row'><th role='rowheader' scope='row'><data value='~'>";

/// The rest of the row. Values: width of its bar; voters, for programs and as they are shown.
pub(crate) const VOTERS_ROW_CLOSING: &str =
    "</data><svg class='bar' viewBox='0 0 10000 1' preserveAspectRatio='none' aria-hidden='true'><rect width='~' height='1'/></svg></th><td role='cell' class='n'><data value='~'>~</data></td></tr>
";

/// The head of the comparison of both rules. Values: its heading and caption, and the heads of its columns.
pub(crate) const COMPARED_OPENING: &str = "<section class='many' aria-labelledby='compared'>
<h2 id='compared'>~</h2>
<table class='wide' role='table'>
<caption role='caption'>~</caption>
<thead role='rowgroup'><tr role='row'><th role='columnheader' scope='col'>~</th><th role='columnheader' scope='col' class='n'>~</th><th role='columnheader' scope='col' class='n'>~</th><th role='columnheader' scope='col' class='n'>~</th><th role='columnheader' scope='col' class='n'>~</th></tr></thead>
<tbody role='rowgroup'>
";

/// A rule. Values: what it is called; how many projects win, what they cost, how many voters have no winner, and how
/// many have more winners than by the other rule, each behind its label, for programs and as it is shown.
pub(crate) const COMPARED_ROW: &str =
    "<tr role='row'><th role='rowheader' scope='row'>~</th><td role='cell' class='n' data-label='~'><data class='rule_projects' value='~'>~</data></td><td role='cell' class='n' data-label='~'><data class='rule_cost' value='~'>~</data></td><td role='cell' class='n' data-label='~'><data class='without' value='~'>~</data></td><td role='cell' class='n' data-label='~'><data class='more_choices' value='~'>~</data></td></tr>
";

/// The end of a table within a section, and the end of a section.
pub(crate) const ROWS_CLOSING: &str = "</tbody>\n</table>\n";

pub(crate) const SECTION_CLOSING: &str = "</section>
";

/// The head of a list of links. Value: what is said of them.
pub(crate) const LINKS_OPENING: &str = "<p>~</p>
<ul>
";

/// A project of a list. Values: its place in the file, its id and its name, and its cost, for programs and as it is
/// shown.
pub(crate) const ENTRY: &str =
    "<li><a href='#p-~'><span class='id' dir='auto'>~</span> <bdi dir='auto'>~</bdi></a> (<data value='~'>~</data>)</li>
";

/// The end of that list.
pub(crate) const LINKS_CLOSING: &str = "</ul>
";

/// The head of how it was counted. Value: the heading.
pub(crate) const RULE_OPENING: &str = "<section aria-labelledby='rule'>
<h2 id='rule'>~</h2>
";

/// What stands before the picture of shares.
pub(crate) const FIGURE_OPENING: &str = "<figure>
";

/// What stands behind it. Value: the caption.
pub(crate) const FIGURE_CLOSING: &str = "<figcaption>~</figcaption>
</figure>
";

/// What stands before the list.
pub(crate) const LIST_OPENING: &str = "<ol>
";

/// Its end.
pub(crate) const RULE_CLOSING: &str = "</ol>
</section>
";

/// A sentence of a list. Value: the sentence.
pub(crate) const ITEM: &str = "<li>~</li>
";

/// A text of the program's, within a sentence. Value: the text.
pub(crate) const CODE: &str = "<code>~</code>";

/// The head of the list of ties, itself an item of a list. Value: the heading.
pub(crate) const TIES_OPENING: &str = "<li>~
<ul class='ties'>
";

/// The end of a list that is itself an item of a list.
pub(crate) const LIST_CLOSING: &str = "</ul>
</li>
";

/// The head of a list of projects, itself an item of a list. Value: what is said of these.
pub(crate) const THOSE_OPENING: &str = "<li>~
<ul>
";

/// The head of what was counted. Values: the heading, and what is said of the bytes.
pub(crate) const CHECK_OPENING: &str = "<section aria-labelledby='check'>
<h2 id='check'>~</h2>
<p>~</p>
<dl>
";

/// A file. Values: its name, and its digest.
pub(crate) const CHECK_FILE: &str = "<dt>FILE: <bdi dir='auto'>~</bdi>, SHA-256</dt>
<dd><code>~</code></dd>
";

/// A journal. Values: its name, and its digest.
pub(crate) const CHECK_JOURNAL: &str = "<dt>JOURNAL: <bdi dir='auto'>~</bdi>, SHA-256</dt>
<dd><code>~</code></dd>
";

/// The end of the sources.
pub(crate) const SOURCES_CLOSING: &str = "</dl>
";

/// A link. Values: its address, and what it is called.
pub(crate) const RECOUNT_LINK: &str = "<a href='~'>~</a>";

/// A link to what is published. Values: its address, and what it is called.
pub(crate) const FILES_LINK: &str = "<a class='files' href='~'>~</a>";

/// A paragraph. Value: the sentence.
pub(crate) const PARAGRAPH: &str = "<p>~</p>
";

/// What stands before the command, and behind it.
pub(crate) const COMMAND_OPENING: &str = "<pre><code>";

pub(crate) const COMMAND_CLOSING: &str = "</code></pre>
";

/// The command that recounts a file, and a file and a journal.
pub(crate) const COUNT: &str = "sha256sum FILE
pb_app projects FILE";

pub(crate) const AUDIT: &str = "pb_app audit FILE JOURNAL --digests --require-shut";

/// Its options. Values: the option for the measure and that for the completion, each with a space before it, or
/// nothing; the step in hundredths; the limit of raises.
pub(crate) const OPTIONS: &str = "~~~ --step ~ --raises ~";

/// The option of most votes first, which has no others.
pub(crate) const BY_VOTES: &str = " --rule most-votes";

/// The option for ties.
pub(crate) const TIES_OPTION: &str = " --ties ~";

/// The options by which it was decided. Values: what decides, and the name of the other rule.
pub(crate) const DECIDED_OPTIONS: &str = " --decide ~ --beside ~";

/// The end of how to check a result.
pub(crate) const CHECK_CLOSING: &str = "</section>
";

/// The end of a page.
pub(crate) const CLOSING: &str = "</main>
</body>
</html>
";
