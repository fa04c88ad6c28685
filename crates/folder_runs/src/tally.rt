// How often each of some texts came.
use std::alloc::{AllocError, Global};

#[derive(Drop)]
struct Row {
    text: String,
    count: u64,
}

/// Texts with how often each came, in the order in which they came first.
#[derive(Drop)]
pub struct Tally {
    alloc: Global,
    rows: Vec<Row>,
}

impl Tally {
    /// A tally of no rows.
    pub fn new(alloc: Global) -> Tally {
        Tally {
            alloc,
            rows: Vec::new(alloc),
        }
    }

    /// This text came once more.
    pub fn add(&mut self, text: &str) -> Result<(), AllocError> {
        for row in self.rows.iter_mut() {
            if row.text.as_str() == text {
                row.count = row.count.saturating_add(1);
                return Ok(());
            }
        }
        let text = String::from_str(self.alloc, text)?;
        self.rows.push(Row { text, count: 1 })?;
        Ok(())
    }

    /// Writes each text with its count.
    pub fn write(&self, out: &mut String) -> Result<(), AllocError> {
        let mut between = "";
        for row in &self.rows {
            let text = row.text.as_str();
            let count = row.count;
            write!(out, "{between}{text} {count}")?;
            between = ", ";
        }
        Ok(())
    }
}
