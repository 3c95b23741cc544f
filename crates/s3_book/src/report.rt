//! The page of a job's report.
ghost use Rattle.std.specs.Prelude.{◌≡◌, ◌++◌, IfOk, OnOk};
ghost use Rattle.s3_book.specs.Inner.Parts.{page_of};
ghost use Rattle.s3_book.specs.Inner.Reports.{closing, head_end, head_of, opening, report_page as report_page_spec, sheets, style};

use crate::part::{Part, put};
use std::alloc::{AllocError, Global};

/// The page of a job's report, given its text as `write_text` of `s3_pages` writes it. The title is a text of UTF-8.
pub fn report_page(alloc: Global, title: &[u8], text: &[u8]) -> Result<Vec<u8>, AllocError>
    ensures { IfOk result (λ page. page.items ≡ report_page_spec title.now text.now) }
{
    let mut page = Vec::new(alloc);
    put_opening(&mut page, title)?;
    put_sheets(&mut page, title, text)?;
    put_closing(&mut page)?;
    Ok(page)
}

/// Appends what each page begins with.
pub fn put_opening(text: &mut Vec<u8>, title: &[u8]) -> Result<(), AllocError>
    ensures { OnOk result (text.new.items ≡ text.old.items ++ opening title.now) }
{
    put_head(text, title)?;
    put_style(text)?;
    put_head_end(text)
}

/// Appends what comes between the style and the content of a page.
fn put_head_end(text: &mut Vec<u8>) -> Result<(), AllocError>
    ensures { OnOk result (text.new.items ≡ text.old.items ++ page_of head_end) }
{
    put(text, &[Part::Markup(b"</style>\n</head>\n<body>\n")])
}

/// Appends what comes before the style.
fn put_head(text: &mut Vec<u8>, title: &[u8]) -> Result<(), AllocError>
    ensures { OnOk result (text.new.items ≡ text.old.items ++ page_of (head_of title.now)) }
{
    put(
        text,
        &[
            Part::Markup(
                b"<!DOCTYPE html>\n<html lang=\"en\">\n<head>\n<meta charset=\"utf-8\">\n<meta name=\"viewport\" content=\"width=device-width\">\n",
            ),
            Part::Markup(b"<title>"),
            Part::Value(title),
            Part::Markup(b"</title>\n<style>\n"),
        ],
    )
}

/// Appends how all pages look.
fn put_style(text: &mut Vec<u8>) -> Result<(), AllocError>
    ensures { OnOk result (text.new.items ≡ text.old.items ++ page_of style) }
{
    put(
        text,
        &[
            Part::Markup(
                b":root{color-scheme:light dark;--ink:#111;--paper:#fff;--bar:#e1f2e1;--edge:#999;--one:#b9d4f0;--two:#f0d2ae;--own:#d9c6e8;--halt:#b00}\n",
            ),
            Part::Markup(b"@media screen and (prefers-color-scheme:dark){\n"),
            Part::Markup(
                b":root{--ink:#eee;--paper:#151515;--bar:#1c331c;--edge:#777;--one:#24486e;--two:#6e4b1c;--own:#523a68;--halt:#f66}}\n",
            ),
            Part::Markup(
                b"body{color:var(--ink);background:var(--paper);font:1rem/1.4 sans-serif;margin:1rem}\n",
            ),
            Part::Markup(b"a{color:inherit;white-space:nowrap}\n"),
            Part::Markup(b"table{border-collapse:collapse}\n"),
            Part::Markup(b"table:not(:has(td)){display:none}\n"),
            Part::Markup(
                b"td,th{border-bottom:1px solid var(--edge);padding:.2rem .7rem;text-align:left;vertical-align:top}\n",
            ),
            Part::Markup(
                b"pre{margin:0;white-space:pre-wrap}\ntd:has(pre){width:100%;max-width:0}\ntd pre{white-space:pre;overflow-x:auto}\n@media (max-width:40rem){td,th{padding:.2rem .3rem}}\n",
            ),
            Part::Markup(
                b".chart{display:block;max-width:70rem;margin:.5rem 0;overflow:visible}\n",
            ),
            Part::Markup(b".lane{fill:none;stroke:var(--edge)}\n"),
            Part::Markup(b".level1{fill:var(--one)}\n"),
            Part::Markup(
                b".level2{fill:var(--two)}\n.masters{fill:var(--own)}\n.mark{fill:var(--halt)}\n.stripe{fill:var(--paper);opacity:.75}\n",
            ),
            Part::Markup(
                b".chart>svg:nth-of-type(even)>rect{opacity:.7}\n.key{vertical-align:text-bottom}\n",
            ),
            Part::Markup(b"text{fill:var(--ink);font:14px sans-serif}\n"),
            Part::Markup(
                b"section{position:relative;width:132ch;height:792pt;padding:0 4ch;margin:1rem 0;border:1px solid var(--edge);\n",
            ),
            Part::Markup(
                b"font:10pt/12pt monospace;background:repeating-linear-gradient(var(--bar) 0 36pt,transparent 36pt 72pt);\n",
            ),
            Part::Markup(b"print-color-adjust:exact;page:form}\n"),
            Part::Markup(b"section div{height:12pt;white-space:pre}\n"),
            Part::Markup(b"section p{margin:-12pt 0 0}\n"),
            Part::Markup(b"@page form{size:14.875in 11in;margin:0}\n"),
            Part::Markup(
                b"@media print{body{margin:0}nav{display:none}tr,svg{break-inside:avoid}h2,h3,h3+p{break-after:avoid}td,th{padding:.2rem .3rem}td pre{font-size:6pt;overflow:visible}\n",
            ),
            Part::Markup(
                b"section{font-size:12pt;height:791pt;margin:0;padding:0 calc((1071pt - 132ch)/2);border:0;overflow:hidden;\n",
            ),
            Part::Markup(b"break-after:page;break-inside:avoid}\n"),
            Part::Markup(b"section:last-child{break-after:auto}}\n"),
        ],
    )
}

/// Appends a link to the day, the title, and the pages of a report.
fn put_sheets<'x>(text: &mut Vec<u8>, title: &'x [u8], report: &'x [u8]) -> Result<(), AllocError>
    ensures { OnOk result (text.new.items ≡ text.old.items ++ page_of (sheets title.now report.now)) }
{
    put(
        text,
        &[
            Part::Markup(b"<nav><a href=\"index.html\">The day</a> "),
            Part::Value(title),
            Part::Markup(b"</nav>\n<main><section><div>"),
            Part::Report(report),
            Part::Markup(b"</div></section></main>\n"),
        ],
    )
}

/// Appends what each page ends with.
pub fn put_closing(text: &mut Vec<u8>) -> Result<(), AllocError>
    ensures { OnOk result (text.new.items ≡ text.old.items ++ page_of closing) }
{
    put(text, &[Part::Markup(b"</body>\n</html>\n")])
}
