// From what was read of a source to the program that it gives.
ghost use Rattle.std.specs.Prelude.{◌≡◌, MatchResult};
ghost use Rattle.source.specs.Names.{number_of};
ghost use Rattle.source.specs.Stands.{seen_of};
ghost use Rattle.compiler.specs.declared.refusal.Refusal.TheVariants.{Memory};
ghost use Rattle.compiler.specs.Packaging.{packaged as packaged_in, or_first};
ghost use Rattle.compiler.specs.Stands.{program_of};

use crate::compiled::Program;
use crate::headers::headers;
use crate::limited::Limited;
use crate::refusal::Refusal;
use program::declarations::Declarations;
use program::headers::HeaderNo;
use source::seen::Seen;
use std::alloc::Global;

// The header that comes first.
fn first(named: Option<HeaderNo>) -> HeaderNo
    ensures { result.at ≡ or_first (number_of named) }
{
    named.unwrap_or(HeaderNo { at: 0 })
}

pub(crate) fn packaged(heap: Global, limited: Limited) -> Result<Program, Refusal>
    ensures { MatchResult result (λ p. program_of p ≡ packaged_in (seen_of limited.seen)) (λ f. f ≡ Memory) }
{
    let Ok(end) = u32::try_from(limited.seen.body.end) else {
        return Err(Refusal::Memory);
    };
    let Ok(headers) = headers(heap, &limited, first(limited.seen.routes.first)) else {
        return Err(Refusal::Memory);
    };
    let Limited {
        seen: Seen {
            names,
            routes: _,
            tables,
            body,
        },
    } = limited;
    Ok(Program {
        headers,
        declarations: Declarations {
            widths: names.widths,
            tables: tables.declared,
        },
        names,
        statements: body.rows,
        end,
    })
}
