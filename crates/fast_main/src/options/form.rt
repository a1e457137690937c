// Which text the words ask for.
ghost use Rattle.std.specs.Prelude.{◌≡◌, option_map};
ghost use Rattle.fast_text.specs.TextForm.{text_form};
ghost use Rattle.fast_main.specs.Options.Asked.{named_form, form_by};

use crate::options::names::is_free_name;
use fast_text::Form;

fn named_form<'a>(wants_header: bool, wants_product: bool, name: &'a str) -> Form<'a>
    ensures { text_form result ≡ named_form wants_header wants_product name.entry.now }
{
    match (wants_header, wants_product) {
        (false, false) => Form::Function { name },
        (true, false) => Form::Header { name },
        (false, true) => Form::Product { name },
        (true, true) => Form::ProductHeader { name },
    }
}

/// The text by a header and a product that are wanted or not, and a name.
pub(crate) fn form_by<'a>(
    wants_header: bool,
    wants_product: bool,
    name: Option<&'a str>,
) -> Option<Form<'a>>
    ensures { option_map text_form result
        ≡ form_by wants_header wants_product (option_map (λ s. s.now) name.entry) }
{
    match name {
        Some(name) => {
            if is_free_name(name) {
                Some(named_form(wants_header, wants_product, name))
            } else {
                None
            }
        }
        None => {
            if wants_header || wants_product {
                None
            } else {
                Some(Form::Arrays)
            }
        }
    }
}
