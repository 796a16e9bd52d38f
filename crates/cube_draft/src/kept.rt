// Whether what was stated of the columns is kept in dimensions that were read.
ghost use Rattle.std.specs.Prelude.{◌≡◌, length};
ghost use Rattle.std.specs.List.{list_all};
ghost use Rattle.cube_draft.specs.Drafts.{are_columns as are_columns_in, has_level as has_level_in, is_left_out as is_left_out_of, is_stated as is_stated_in, stand_first as stand_first_in, keeps as keeps_in};

use crate::check::{has_level, is_used};
use crate::choices::{Choices, Stated};
use crate::text::level_name;
use cube_model::{Dimension, Dims, Text};

// Whether levels are some columns, in turn.
fn are_columns(levels: &[Text], columns: &[Text]) -> bool
    ensures { result ≡ are_columns_in levels.now columns.now }
{
    match levels {
        [] => columns.is_empty(),
        [level, levels @ ..] => match columns {
            [] => false,
            [column, columns @ ..] => {
                level.as_slice() == level_name(column.as_slice()) && are_columns(levels, columns)
            }
        },
    }
}

// Whether a dimension is a stated one.
fn is_stated(stated: &Stated, dimension: &Dimension) -> bool
    ensures { result ≡ is_stated_in stated.now dimension.now }
{
    dimension.name() == stated.name.as_slice()
        && are_columns(dimension.levels(), stated.columns.as_slice())
}

// Whether the stated dimensions stand first, in their order.
fn stand_first(stated: &[Stated], dimensions: &[Dimension]) -> bool
    ensures { result ≡ stand_first_in stated.now dimensions.now }
{
    match stated {
        [] => true,
        [one, stated @ ..] => match dimensions {
            [] => false,
            [dimension, dimensions @ ..] => {
                is_stated(one, dimension) && stand_first(stated, dimensions)
            }
        },
    }
}

// Whether some columns are levels.
fn are_levels(dimensions: &[Dimension], columns: &[Text]) -> bool
    ensures { result ≡ list_all (has_level_in dimensions.now) columns.now }
{
    columns.iter().all(|column| has_level(dimensions, level_name(column.as_slice())))
}

// Whether some columns are left out.
fn are_left_out(dims: &Dims, columns: &[Text]) -> bool
    ensures { result ≡ list_all (is_left_out_of dims.now) columns.now }
{
    columns
        .iter()
        .all(|column| !is_used(dims, column.as_slice()))
}

/// Whether dimensions keep what was stated.
pub(crate) fn keeps(choices: &Choices, dims: &Dims) -> bool
    ensures { result ≡ keeps_in choices.now dims.now }
{
    let dimensions = dims.dimensions();
    stand_first(choices.dimensions.as_slice(), dimensions)
        && are_levels(dimensions, choices.members.as_slice())
        && are_left_out(dims, choices.skipped.as_slice())
}
