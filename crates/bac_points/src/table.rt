//! The table of a device's points, as it is printed.

use bac_ask_report::CellText;
use bac_asking::{RecordForm, outcome_of};
use bac_driver::AskEnd;
use bac_point_report::{
    CSV_HEADER, Cell, HEADER, Widths, cell_of, point_line, point_object, point_references,
    point_row, record_cell, values_of,
};
use bac_service::{AnyRequest, PropertyReference};
use bac_value::{Data, NoMemory, ObjectIdentifier};
use std::alloc::Global;
use std::io;
use std::io::{ErrorKind, Write};

/// How many properties of an object are asked for.
const COLUMNS: usize = 5;

/// How the table is printed.
#[derive(Clone, Copy)]
enum TableForm {
    /// Lines with tabs between the cells.
    Lines,
    /// Lines with aligned columns, for a terminal.
    Columns,
    /// A JSON object for each object.
    Json,
    /// A CSV row for each object.
    Csv(CellText),
}

/// An object, and its cells.
#[derive(Drop)]
struct Row {
    object: ObjectIdentifier,
    cells: Vec<Cell>,
}

/// A table, of which some lines are printed.
#[derive(Drop)]
pub(crate) struct Table {
    alloc: Global,
    form: TableForm,
    /// How wide the columns of the lines so far are.
    widths: Widths,
    /// Whether the names of the columns are printed.
    is_headed: bool,
}

/// An Err of a writer that says that an allocation failed.
fn out_of_memory() -> io::Error {
    io::Error::from(ErrorKind::OutOfMemory)
}

/// A cell, by how the ask for its property ended; in a record its text stands as it came.
fn form_cell(
    alloc: Global,
    form: TableForm,
    reference: PropertyReference,
    end: &AskEnd,
) -> Result<Cell, NoMemory> {
    match form {
        TableForm::Lines | TableForm::Columns => cell_of(alloc, reference, outcome_of(end)),
        TableForm::Json | TableForm::Csv(_) => record_cell(alloc, reference, outcome_of(end)),
    }
}

/// The cells of an object, by how the asks for its columns ended.
fn row_of(
    alloc: Global,
    form: TableForm,
    object: ObjectIdentifier,
    ends: &[AskEnd],
) -> Result<Row, NoMemory> {
    let mut cells = Vec::new(alloc);
    for (reference, end) in point_references(object).iter().zip(ends) {
        cells.push(form_cell(alloc, form, *reference, end)?)?;
    }
    Ok(Row { object, cells })
}

/// The rows of some objects.
fn rows_of(
    alloc: Global,
    form: TableForm,
    objects: &[ObjectIdentifier],
    ends: &[AskEnd],
) -> Result<Vec<Row>, NoMemory> {
    let mut rows = Vec::new(alloc);
    for (object, ends) in objects.iter().zip(ends.chunks(COLUMNS)) {
        rows.push(row_of(alloc, form, *object, ends)?)?;
    }
    Ok(rows)
}

/// The values of the present-value of an object, if they came.
fn present_values<'e>(object: ObjectIdentifier, ends: &'e [AskEnd]) -> Option<Data<'e>> {
    let references = point_references(object);
    let [_, end, ..] = ends else {
        return None;
    };
    values_of(AnyRequest::ReadProperty(references[1]), outcome_of(end))
}

impl Table {
    /// A table of which nothing is printed yet: of records, of aligned columns where a terminal shows it, or of lines with tabs.
    pub(crate) fn new(alloc: Global, records: Option<RecordForm>, is_screen: bool) -> Table {
        let form = match records {
            Some(RecordForm::Json) => TableForm::Json,
            Some(RecordForm::Csv(texts)) => TableForm::Csv(texts),
            None if is_screen => TableForm::Columns,
            None => TableForm::Lines,
        };
        Table {
            alloc,
            form,
            widths: Widths::new(),
            is_headed: false,
        }
    }

    /// Prints what stands above the lines of these objects. Aligned names of columns stand above the first lines, unless there are none.
    pub(crate) fn begin<O: Write>(
        &mut self,
        objects: &[ObjectIdentifier],
        out: &mut O,
    ) -> io::Result<()> {
        match self.form {
            TableForm::Lines => out.write_all(HEADER.as_bytes()),
            TableForm::Csv(_) => out.write_all(CSV_HEADER),
            TableForm::Json => Ok(()),
            TableForm::Columns => {
                for object in objects {
                    self.widths.widen_object(self.alloc, *object)?;
                }
                if objects.is_empty() {
                    self.print_names(out)?;
                }
                Ok(())
            }
        }
    }

    /// Prints the names of the columns, aligned, if they are not printed yet.
    fn print_names<O: Write>(&mut self, out: &mut O) -> io::Result<()> {
        if self.is_headed {
            return Ok(());
        }
        self.is_headed = true;
        out.write_all(&self.widths.names_line(self.alloc)?)
    }

    /// The line of a row; `ends` is how the asks for its columns ended. None where memory is refused.
    fn line_of(&self, row: &Row, ends: &[AskEnd]) -> Option<Vec<u8>> {
        let object = row.object;
        match self.form {
            TableForm::Lines => point_line(self.alloc, object, &row.cells).ok(),
            TableForm::Columns => self.widths.line(self.alloc, object, &row.cells).ok(),
            TableForm::Csv(texts) => point_row(self.alloc, texts, object, &row.cells).ok(),
            TableForm::Json => {
                let values = present_values(object, ends);
                point_object(self.alloc, object, &row.cells, values).ok()
            }
        }
    }

    /// Widens the columns for rows where they are aligned; their names stand above the first rows.
    fn make_room<O: Write>(&mut self, rows: &[Row], out: &mut O) -> io::Result<()> {
        let TableForm::Columns = self.form else {
            return Ok(());
        };
        for row in rows {
            self.widths.widen(&row.cells);
        }
        self.print_names(out)
    }

    /// Prints rows; `ends` is how the asks for their columns ended.
    fn print_rows<O: Write>(
        &mut self,
        rows: &[Row],
        ends: &[AskEnd],
        out: &mut O,
    ) -> io::Result<()> {
        self.make_room(rows, out)?;
        for (row, ends) in rows.iter().zip(ends.chunks(COLUMNS)) {
            let Some(line) = self.line_of(row, ends) else {
                return Err(out_of_memory());
            };
            out.write_all(&line)?;
        }
        Ok(())
    }

    /// Prints the lines of some objects, by how the asks for their columns ended.
    pub(crate) fn print<O: Write>(
        &mut self,
        objects: &[ObjectIdentifier],
        ends: &[AskEnd],
        out: &mut O,
    ) -> io::Result<()> {
        let Ok(rows) = rows_of(self.alloc, self.form, objects, ends) else {
            return Err(out_of_memory());
        };
        self.print_rows(&rows, ends, out)?;
        out.flush()
    }
}
