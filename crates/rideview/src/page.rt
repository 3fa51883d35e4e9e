// What stands after the data in the page: the text for readers without scripts (own).
use crate::loss_data::LossData;
use crate::ride::Ride;
use std::alloc::{AllocError, Global};
use std::fmt::Write;

/// The most losses of the table.
const MOST_ROWS: usize = 1000;

/// The most lines of the report.
const MOST_LINES: usize = 5000;

// What stands for a sign of a text in HTML.
fn escaped(sign: char) -> Option<&'static str> {
    match sign {
        '&' => Some("&#38;"),
        '<' => Some("&#60;"),
        '>' => Some("&#62;"),
        '"' => Some("&#34;"),
        _ => None,
    }
}

fn add_text(page: &mut String, text: &str) -> Result<(), AllocError> {
    for sign in text.chars() {
        match escaped(sign) {
            Some(name) => page.push_str(name)?,
            None => page.push(sign)?,
        }
    }
    Ok(())
}

fn add_names(page: &mut String, names: &[&str]) -> Result<(), AllocError> {
    let mut first = true;
    for name in names {
        if !first {
            page.push_str(", ")?;
        }
        first = false;
        add_text(page, name)?;
    }
    Ok(())
}

fn add_row(page: &mut String, loss: &LossData) -> Result<(), AllocError> {
    let cause = loss.loss.cause;
    page.push_str("<tr><td>")?;
    add_text(page, loss.line.as_str())?;
    write!(page, "</td><td>{cause}</td><td>")?;
    add_names(page, &loss.names)?;
    page.push_str("</td></tr>\n")
}

fn add_report(page: &mut String, report: &[String]) -> Result<(), AllocError> {
    page.push_str("<pre>\n")?;
    for line in report.iter().take(MOST_LINES) {
        add_text(page, line.as_str())?;
        page.push_str("\n")?;
    }
    page.push_str("</pre>\n")
}

/// The text for readers without scripts. It closes the data.
pub fn text_of(alloc: Global, ride: &Ride, report: &[String]) -> Result<String, AllocError> {
    let mut page = String::new(alloc);
    page.push_str("\n</script>\n<noscript>\n")?;
    page.push_str("<table><tr><th>the report's line</th><th>taken at</th><th>by</th></tr>\n")?;
    for loss in ride.losses.iter().take(MOST_ROWS) {
        add_row(&mut page, loss)?;
    }
    page.push_str("</table>\n")?;
    add_report(&mut page, report)?;
    page.push_str("</noscript>\n")?;
    Ok(page)
}
