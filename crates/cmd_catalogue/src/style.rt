//! The style of the page.
ghost use Rattle.std.specs.Prelude.{◌≡◌, ◌++◌, OnOk};
ghost use Rattle.cmd_catalogue.specs.Style.{rules, page_style};
ghost use Rattle.out_picture.specs.Style.{picture_rules};

use out_picture::push_picture_rules;
use std::alloc::AllocError;

/// The colours, light and dark, and the page.
const PAGE_RULES: &[u8] =
    b":root{color-scheme:light dark;--ink:#1d1f24;--soft:#5b606a;--line:#dcd9d0;--paper:#f6f4ee;--card:#fff;--good:#1c7547;--bad:#b3261e;--odd:#855500;--mono:ui-monospace,\"Cascadia Mono\",\"SF Mono\",Menlo,Consolas,\"DejaVu Sans Mono\",monospace}\n\
@media screen and (prefers-color-scheme:dark){:root{--ink:#e9e7e1;--soft:#a3a7b0;--line:#35373e;--paper:#141519;--card:#1c1e23;--good:#6fce9b;--bad:#ff8f85;--odd:#e2b457}}\n\
*{box-sizing:border-box}\n\
html{scroll-padding-top:9rem}\n\
[hidden],.opening>body>:nth-child(n+102){display:none!important}\n\
body{max-width:60rem;margin:0 auto;padding:0 1rem 4rem;background:var(--paper);color:var(--ink);font:1rem/1.5 system-ui,sans-serif}\n\
header{position:sticky;top:0;z-index:1;margin-bottom:1rem;padding:1rem 0 .75rem;background:var(--paper);border-bottom:1px solid var(--line)}\n\
h1{margin:0;font-size:1.3rem}\n";

/// The search field and its buttons.
const SEARCH_RULES: &[u8] =
    b".tools{display:flex;flex-wrap:wrap;gap:.5rem;align-items:center;margin-top:.5rem}\n\
[role=group]{display:flex;gap:.5rem}\n\
input,button{font:inherit;padding:.4rem .8rem;border:1px solid var(--line);border-radius:.5rem;background:var(--card);color:inherit}\n\
input{flex:1 1 16rem;min-width:0}\n\
button{cursor:pointer}\n\
[aria-pressed=true]{background:var(--ink);border-color:var(--ink);color:var(--paper)}\n\
output{min-width:9.5rem;color:var(--soft);font-size:.9rem;text-align:right}\n";

/// The sections, and the marks of their state.
const SECTION_RULES: &[u8] =
    b"details,section{margin-bottom:.5rem;background:var(--card);border:1px solid var(--line);border-radius:.6rem}\n\
summary,section{display:grid;grid-template-columns:1.6rem auto 1fr auto .8rem;column-gap:.6rem;align-items:baseline;padding:.6rem .9rem;list-style:none}\n\
summary{cursor:pointer}\n\
summary::-webkit-details-marker{display:none}\n\
summary::before,section::before{grid-row:1/3;align-self:start;width:1.5rem;height:1.5rem;font:700 .9rem/1.5rem system-ui;text-align:center;color:var(--card);content:\"\\2713\";content:\"\\2713\"/\"\";background:var(--good);border-radius:50%;print-color-adjust:exact}\n\
.amiss summary::before,section::before{content:\"!\";content:\"!\"/\"\";line-height:1.75rem;background:var(--bad);border-radius:0;clip-path:polygon(50% 0,100% 100%,0 100%)}\n\
[data-sign] summary::before{background:var(--odd)}\n\
summary::after{grid-area:1/5/3;align-self:center;content:\"\\203a\";content:\"\\203a\"/\"\";font-size:1.4rem;color:var(--soft);text-align:center}\n\
[open] summary::after{transform:rotate(90deg)}\n";

/// The texts in them: what is seen when they are closed, and what is wrong.
const LABEL_RULES: &[u8] =
    b"h2{margin:0;font:600 1rem/1.5 var(--mono);white-space:pre-wrap;overflow-wrap:anywhere}\n\
span,p{font-size:.9rem}\n\
.id{font-family:var(--mono);color:var(--soft);white-space:pre}\n\
.host{grid-column:2/4;overflow-wrap:anywhere}\n\
span.host,.contents{color:var(--soft)}\n\
.state,p{grid-area:1/4;margin:0;text-align:right;font-weight:600;color:var(--good)}\n\
.contents{grid-column:4;text-align:right}\n\
.contents[data-found]::after{content:\", \" attr(data-found);color:var(--ink);font-weight:600}\n\
[open] .contents::after{content:none}\n\
.amiss .state,p{color:var(--bad)}\n\
[data-sign] .state{color:var(--odd)}\n\
ul{padding:0;list-style:none;color:var(--bad);font-size:.9rem}\n\
ul:empty{display:none}\n\
li{overflow-wrap:anywhere}\n";

/// The table of files, and the picture.
const TABLE_RULES: &[u8] = b"ul,table,svg{margin:0 .9rem .9rem 3.1rem}\n\
table:not(:has(td)){display:none}\n\
table{width:calc(100% - 4rem);border-collapse:collapse;font:.875rem/1.6 var(--mono)}\n\
th,td{padding:.1rem .9rem .1rem 0;text-align:left;vertical-align:top;font-weight:400}\n\
thead th,tbody td{white-space:nowrap}\n\
tbody td:last-child{white-space:normal}\n\
thead th{font:600 .75rem/1.6 system-ui,sans-serif;color:var(--soft);border-bottom:1px solid var(--line)}\n\
tr :first-child{width:3.5rem;text-align:right}\n\
tr :nth-child(3){width:4.5rem}\n\
tbody th{width:40%;min-width:calc(18ch + .9rem);white-space:pre-wrap;overflow-wrap:anywhere}\n\
tbody th::before,tbody th::after,.name::before,.name::after{content:\"\\\"\";color:var(--soft);font-weight:400}\n\
.whole::before{content:\"\\2713  \";color:var(--good)}\n\
.broken{color:var(--bad)}\n\
.broken::before{content:\"! \"}\n\
.unknown{color:var(--odd)}\n\
.unknown::before{content:\"? \"}\n\
svg{display:block;max-width:calc(100% - 4rem);border-radius:.4rem}\n\
@media screen and (prefers-color-scheme:dark){svg{filter:invert(.9) hue-rotate(180deg)}}\n";

/// What differs for the keyboard, on a narrow screen, and in print.
const MEDIUM_RULES: &[u8] = b":focus-visible{outline:3px solid var(--good);outline-offset:2px}\n\
summary:focus-visible{outline-offset:-4px;border-radius:.6rem}\n\
@media (max-width:40rem){summary,section{grid-template-columns:1.6rem auto 1fr .8rem}summary::after{grid-column:4}.host,.contents,.state,p{grid-area:auto/2/auto/4;text-align:left}input{flex-basis:100%}ul,table,svg{margin-left:.9rem}table,svg{width:calc(100% - 1.8rem);max-width:none}output{text-align:left}table{font-size:.8125rem}table,thead,tbody{display:block}tr{display:grid;grid-template-columns:2.9rem 1fr 2.2rem 4rem}tr :nth-child(n){width:auto;min-width:0}th,td{padding-right:.5rem}.broken,.unknown{grid-column:2/-1}.id{white-space:pre-wrap;overflow-wrap:anywhere}}\n\
@media print{:root{color-scheme:light;--ink:#000;--paper:#fff}body{max-width:none;padding:0}header{position:static}.tools,summary::after{display:none}\n\
summary,thead{break-after:avoid}tr,li,svg,section,details:not(:has(tr:nth-child(30),li:nth-child(9))){break-inside:avoid}\n\
details::details-content{content-visibility:visible;display:block}details:has(svg)::details-content{display:grid;grid-template-columns:6fr 5fr;align-items:start}\n\
details:has(svg) ul{grid-column:1/3}details:has(svg) :is(table,svg){width:auto;max-width:none;margin:0 .9rem .9rem}details:has(svg) tr :nth-child(n+2){width:auto}.whole{white-space:nowrap!important}}\n";

/// Appends all rules.
#[tactic(auto, unfolding(crate::specs::Style::rules, crate::specs::Style::page_rules, crate::specs::Style::search_rules, crate::specs::Style::section_rules, crate::specs::Style::label_rules, crate::specs::Style::table_rules, crate::specs::Style::medium_rules))]
fn push_rules(out: &mut Vec<u8>) -> Result<(), AllocError>
    ensures { OnOk result (out.new.items ≡ out.old.items ++ rules) }
{
    out.extend_from_slice(PAGE_RULES)?;
    out.extend_from_slice(SEARCH_RULES)?;
    out.extend_from_slice(SECTION_RULES)?;
    out.extend_from_slice(LABEL_RULES)?;
    out.extend_from_slice(TABLE_RULES)?;
    out.extend_from_slice(MEDIUM_RULES)
}

/// Appends all rules of the page, and those of the pictures in it.
fn push_rules_with_pictures(out: &mut Vec<u8>) -> Result<(), AllocError>
    ensures { OnOk result (out.new.items ≡ out.old.items ++ (rules ++ picture_rules)) }
{
    push_rules(out)?;
    push_picture_rules(out)
}

/// Appends the style.
#[tactic(auto, unfolding(crate::specs::Style::page_style, out_markup::specs::Markup::element, out_markup::specs::Markup::tag))]
pub(crate) fn push_style(out: &mut Vec<u8>) -> Result<(), AllocError>
    ensures { OnOk result (out.new.items ≡ out.old.items ++ page_style) }
{
    out.extend_from_slice(b"<style>\n")?;
    push_rules_with_pictures(out)?;
    out.extend_from_slice(b"</style>\n")
}
