// How the page looks.
pub const STYLE: &str = r##":root {
  color-scheme: light dark;
  --ground: #fff; --ink: #1d2127; --faint: #5f6773; --rule: #d9dde2; --panel: #f6f7f9;
  --chosen: #ffe9a8; --lit: #dcebff; --found: #e2f5e0; --accent: #0b5cb8;
  --held: #1a7f37; --marked: #a84b00; --way: #0b5cb8; --gone: #737b87;
}
@media (prefers-color-scheme: dark) {
  :root {
    --ground: #14171b; --ink: #e3e6ea; --faint: #9aa3af; --rule: #343a42; --panel: #1c2026;
    --chosen: #5a4a12; --lit: #1d3a5c; --found: #21411f; --accent: #7db7ff;
    --held: #5fd07c; --marked: #ffa657; --way: #7db7ff; --gone: #8b949e;
  }
}
* { box-sizing: border-box; }
body { margin: 0; font: 14px/1.45 system-ui, sans-serif; color: var(--ink); background: var(--ground); }
header { display: flex; flex-wrap: wrap; gap: 4px 20px; align-items: center; padding: 8px 16px;
  border-bottom: 1px solid var(--rule); background: var(--panel); position: sticky; top: 0; z-index: 1; }
h1 { font-size: 16px; margin: 0; }
h2 { font-size: 13px; margin: 16px 0 6px; color: var(--faint); font-weight: 600; }
#said { color: var(--faint); }
#search { font: inherit; padding: 3px 8px; width: 15em; margin-left: auto;
  color: inherit; background: var(--ground); border: 1px solid var(--rule); border-radius: 4px; }
main { display: grid; grid-template-columns: minmax(0, 3fr) minmax(0, 2fr); }
#run { border-right: 1px solid var(--rule); padding: 0 0 40px 8px; overflow-x: auto; }
#side { padding: 0 16px 40px; position: sticky; top: 42px; align-self: start;
  max-height: calc(100vh - 42px); overflow: auto; }
#run > div { display: flex; align-items: flex-start; min-width: max-content; }
ol, ul { list-style: none; margin: 0; padding: 0; }
#entries { font: 13px/22px ui-monospace, monospace; flex: 1; outline: none; padding-top: 22px; }
#entries li { height: 22px; white-space: pre; padding: 0 8px; cursor: pointer; }
#entries li b { display: inline-block; width: 4em; color: var(--faint); font-weight: normal; }
.found { background: var(--found); }
.lit { background: var(--lit); }
#entries .chosen { background: var(--chosen); }
#entries:focus .chosen { outline: 2px solid var(--accent); outline-offset: -2px; }
svg { flex: none; font: 12px system-ui, sans-serif; }
svg text { fill: var(--faint); text-anchor: middle; }
svg line { stroke: var(--rule); }
svg .way { stroke: var(--accent); stroke-width: 1.5; opacity: .55; }
svg .way.lit { opacity: 1; stroke-width: 3; }
svg .open { stroke-dasharray: 3 3; }
svg circle { fill: var(--faint); cursor: pointer; }
svg circle.call { fill: var(--accent); }
svg circle.reply { stroke: var(--held); stroke-width: 2; }
svg circle.refused { stroke: var(--marked); stroke-width: 2; }
svg circle.lit { stroke: var(--accent); stroke-width: 3; }
svg circle.chosen { fill: var(--marked); }
#forest { font: 13px/1.5 ui-monospace, monospace; }
#forest ul { padding-left: 18px; border-left: 1px solid var(--rule); margin-left: 6px; }
#forest li > span { display: block; padding: 0 4px; cursor: pointer; border-radius: 3px; }
#forest b { font-weight: 600; }
.held b { color: var(--held); } .marked b { color: var(--marked); }
.way b { color: var(--way); } .gone b { color: var(--gone); text-decoration: line-through; }
.new { outline: 1px dashed var(--accent); }
dl { display: grid; grid-template-columns: max-content 1fr; gap: 2px 12px; margin: 0; }
dt { color: var(--faint); } dd { margin: 0; }
dd a { color: var(--accent); }
table { border-collapse: collapse; } td, th { padding: 1px 10px 1px 0; text-align: left; font-weight: normal; }
th { color: var(--faint); vertical-align: top; white-space: nowrap; } td { font-variant-numeric: tabular-nums; }
kbd { border: 1px solid var(--rule); border-radius: 3px; padding: 0 4px; font: 12px ui-monospace, monospace; }
@media (max-width: 900px) { main { grid-template-columns: 1fr; } #side { position: static; max-height: none; } }
"##;
