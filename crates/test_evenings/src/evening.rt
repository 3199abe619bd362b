//! An evening of a file: its script, and what is written for it.

use std::alloc::{AllocError, Global};

/// A script, and what is due for it.
#[derive(Drop)]
pub(crate) struct Evening {
    pub(crate) script: String,
    pub(crate) due: String,
}

impl Evening {
    /// The evening of a part of a file: its name, and then its rows.
    pub(crate) fn of(alloc: Global, part: &str) -> Result<Evening, AllocError> {
        let mut evening = Evening {
            script: String::new(alloc),
            due: String::new(alloc),
        };
        for row in part.lines().skip(1) {
            evening.push(alloc, row)?;
        }
        Ok(evening)
    }

    /// Appends a row to the script, or to what is due where it is set in; one that begins with `#` is for readers.
    fn push(&mut self, alloc: Global, row: &str) -> Result<(), AllocError> {
        if row.starts_with('#') {
            return Ok(());
        }
        if let Some(names) = row.strip_prefix("in ") {
            return self.push_entrances(alloc, names);
        }
        match row.strip_prefix("  ") {
            Some(written) => self.push_due(written),
            None => push_row(&mut self.script, row),
        }
    }

    /// Appends a row to what is due; behind one that ends with ` %` its session is prompted.
    fn push_due(&mut self, row: &str) -> Result<(), AllocError> {
        let Some(line) = row.strip_suffix(" %") else {
            return push_row(&mut self.due, row);
        };
        push_row(&mut self.due, line)?;
        let session = line.split('|').next().unwrap_or("");
        self.due.push_str(session)?;
        self.due.push_str("|fics% \n")
    }

    /// Appends what people do at moment 0 to come in under these names, as the sessions from 1 on, and what is written
    /// for it.
    fn push_entrances(&mut self, alloc: Global, names: &str) -> Result<(), AllocError> {
        for (place, name) in names.split(' ').enumerate() {
            let session = place.saturating_add(1);
            let events = format!(in alloc; "0 {session} +\n0 {session} > {name}\n")?;
            self.script.push_str(events.as_str())?;
            let greeting = format!(in alloc;
                "{session}|Free Internet Chess Server profile\n{session}|login: \n"
            )?;
            self.due.push_str(greeting.as_str())?;
            let welcome = format!(in alloc; "{session}|Entered as {name}.\n{session}|fics% \n")?;
            self.due.push_str(welcome.as_str())?;
        }
        Ok(())
    }
}

/// Appends a row, with a blank for `_` at its end.
fn push_row(text: &mut String, row: &str) -> Result<(), AllocError> {
    match row.strip_suffix('_') {
        Some(start) => {
            text.push_str(start)?;
            text.push_str(" ")?;
        }
        None => text.push_str(row)?,
    }
    text.push_str("\n")
}
