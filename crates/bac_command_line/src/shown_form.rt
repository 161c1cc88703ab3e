//! How what a task prints is shown.
ghost use Rattle.std.specs.Prelude.{◌≡◌};
ghost use Rattle.bac_command_line.specs.ShownForms.{form_by, form_of, form_of_ask, form_of_files, form_of_list, form_of_view, is_json_decoding, is_json_report};

use crate::task::Task;
use bac_asking::Asking;
use bac_files::FileWork;
use bac_reading::{Decoding, LayerForm, Report};
use bac_serving::ListForm;
use bac_shown::Form;
use bac_simulate::View;

/// Objects of JSON in a form of their own, all else as text.
fn form_by(is_json: bool) -> Form
    ensures { result ≡ form_by is_json }
{
    if is_json { Form::Json } else { Form::Text }
}

fn is_json_decoding(decoding: Decoding) -> bool
    ensures { result ≡ is_json_decoding decoding }
{
    match decoding {
        Decoding::Lines(LayerForm::Objects) => true,
        Decoding::Lines(LayerForm::Numbers) => false,
        Decoding::Lines(LayerForm::Words) => false,
        Decoding::Copied(_) => false,
    }
}

fn is_json_report(report: Report) -> bool
    ensures { result ≡ is_json_report report }
{
    match report {
        Report::Check { .. } => false,
        Report::CheckJson => true,
        Report::CheckLines { .. } => false,
        Report::CheckLinesJson => true,
        Report::Explain(_) => false,
        Report::ExplainJson(_) => true,
        Report::ExplainHtml(_) => false,
        Report::Chart(_) => false,
    }
}

/// A capture is octets.
fn form_of_view(view: Option<View>) -> Option<Form>
    ensures { result ≡ form_of_view view }
{
    match view {
        None => Some(Form::Text),
        Some(View::Text) => Some(Form::Text),
        Some(View::Objects) => Some(Form::Json),
        Some(View::Chart) => Some(Form::Text),
        Some(View::Mermaid) => Some(Form::Text),
        Some(View::Capture) => None,
    }
}

fn form_of_list(form: ListForm) -> Form
    ensures { result ≡ form_of_list form }
{
    match form {
        ListForm::Lines => Form::Text,
        ListForm::Objects => Form::Json,
    }
}

fn form_of_ask(asking: &Asking) -> Option<Form>
    ensures { result ≡ form_of_ask asking.now }
{
    if asking.is_raw() {
        None
    } else {
        Some(form_by(asking.is_json()))
    }
}

/// Octets of a file go to standard output as they are.
fn form_of_files(work: &FileWork<'_, '_>, asking: &Asking) -> Option<Form>
    ensures { result ≡ form_of_files work.now asking.now }
{
    match work {
        FileWork::Fetch { path: None, .. } => None,
        _ => form_of_ask(asking),
    }
}

/// How what a task prints is shown. None where that is octets by nature, or wanted as it came.
pub(crate) fn form_of(task: &Task<'_, '_>) -> Option<Form>
    ensures { result ≡ form_of task.now }
{
    match task {
        Task::Answer { .. } => Some(Form::Text),
        Task::Decode { decoding, .. } => Some(form_by(is_json_decoding(*decoding))),
        Task::Report { report, .. } => Some(form_by(is_json_report(*report))),
        Task::Simulate { view, .. } => form_of_view(*view),
        Task::Serve { serving, .. } => Some(form_by(serving.json)),
        Task::ServeLooking { serving, .. } => Some(form_by(serving.json)),
        Task::ServeKept { serving, .. } => Some(form_by(serving.json)),
        Task::Keep { form, .. } => Some(form_of_list(*form)),
        Task::Forget(_) => Some(Form::Text),
        Task::Ask { asking, .. } => form_of_ask(asking),
        Task::AskLines { asking, .. } => form_of_ask(asking),
        Task::Files { task, work } => form_of_files(work, &task.asking),
        Task::Points(task) => form_of_ask(&task.asking),
        Task::Pair => Some(Form::Text),
        Task::Tell(_) => Some(Form::Text),
    }
}
