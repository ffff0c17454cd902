// The body of the page.
pub const BODY: &str = r##"<header>
<h1>A run of semper</h1>
<span id="said" aria-live="polite"></span>
<input id="search" type="search" placeholder="search entries and keys" aria-label="Search entries and keys">
</header>
<main>
<section id="run" aria-label="Entries"><div><svg id="chart" aria-hidden="true"></svg>
<ol id="entries" role="listbox" tabindex="0" aria-label="Entries of the journal"></ol></div></section>
<section id="side" aria-label="The chosen entry">
<h2 id="title"></h2><dl id="facts"></dl>
<h2 id="after"></h2><div id="forest"></div>
<h2>Counts of the whole run</h2><table id="counts"></table>
<h2>Keys</h2>
<p><kbd>&uarr;</kbd> <kbd>&darr;</kbd> or <kbd>k</kbd> <kbd>j</kbd> choose an entry, <kbd>Home</kbd> <kbd>End</kbd> the first and the last; <kbd>m</kbd> goes to the other end of a message, <kbd>c</kbd> to the call or its reply. <kbd>/</kbd> searches, <kbd>Enter</kbd> goes to the next match, <kbd>Esc</kbd> leaves the search.</p>
</section>
</main>
"##;
