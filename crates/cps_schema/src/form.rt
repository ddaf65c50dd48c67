//! The older and the newer form of a message.
ghost use Rattle.std.specs.Prelude.{◌≡◌, true, false, Some, OnOk, IfErr};
ghost use Rattle.cps_schema.specs.Parts.{is_other};

use super::error::SchemaError;
use cps_model::FaultName;
use cps_textproto::Field;

/// The form to which a field belongs. No message may have fields of both.
#[derive(Clone, Copy)]
pub enum Form {
    Older,
    Newer,
}

/// Whether the form of the earlier fields is known, and is the other one.
pub(crate) fn is_other(given: Option<Form>, form: Form) -> bool
    ensures { result ≡ is_other given form }
{
    match given {
        Some(Form::Older) => match form {
            Form::Older => false,
            Form::Newer => true,
        },
        Some(Form::Newer) => match form {
            Form::Older => true,
            Form::Newer => false,
        },
        None => false,
    }
}

/// Notes the form of a field, which must be that of the earlier ones.
pub(crate) fn take_form(
    given: &mut Option<Form>,
    form: Form,
    field: &Field,
) -> Result<(), SchemaError>
    ensures same { OnOk result (is_other given.old form ≡ false) }
    ensures taken { OnOk result (given.new ≡ Some form) }
    ensures other { IfErr result (λ e. is_other given.old form ≡ true) }
    ensures err { IfErr result (λ e. e ≡ SchemaError.Fault FaultName.MixedForms field.now.name) }
{
    if is_other(*given, form) {
        return Err(SchemaError::Fault {
            name: FaultName::MixedForms,
            token: field.name as usize,
        });
    }
    *given = Some(form);
    Ok(())
}
