// The calls of the print server in C: the sheet check, the plain route, the route by a table, and whether anyone wants a document
// (include/hub.h).
#![tactic(auto)]

ghost use Rattle.meaning.specs.Given.{by_number};
ghost use Rattle.meaning.specs.Promises.{SheetCheckGives, PlainRouteGives, TableRouteGives, WantedGives};

use meaning::number_given;

// The plain route: the number, and the delivery set.
#[repr(C)]
#[derive(Clone, Copy)]
pub struct PlainRoute {
    pub number: u8,
    pub delivered: u64,
}

// The route by a table: the number, the delivery set, and how many patterns were tried.
#[repr(C)]
#[derive(Clone, Copy)]
pub struct TableRoute {
    pub number: u8,
    pub delivered: u64,
    pub tried: u64,
}

// Whether at least one shed takes a document: the number, and yes or no.
#[repr(C)]
#[derive(Clone, Copy)]
pub struct Wanted {
    pub number: u8,
    pub wanted: bool,
}

#[unsafe(no_mangle)]
pub extern "C" fn hub_sheet_check(s: &[u8]) -> u8
    ensures { SheetCheckGives s.now result }
{
    number_given(hub::sheet_check(s))
}

#[unsafe(no_mangle)]
pub extern "C" fn hub_plain_route(s: &[u8], d: &[u8]) -> PlainRoute
    ensures { PlainRouteGives s.now d.now (by_number result.number result.delivered) }
{
    match hub::plain_route(s, d) {
        Err(why) => PlainRoute {
            number: why.number(),
            delivered: 0,
        },
        Ok(set) => PlainRoute {
            number: 0,
            delivered: set,
        },
    }
}

#[unsafe(no_mangle)]
pub extern "C" fn hub_table_route(s: &[u8], t: &[u8], d: &[u8]) -> TableRoute
    ensures { TableRouteGives s.now t.now d.now
        (by_number result.number (record { set = result.delivered; tried = result.tried })) }
{
    match hub::table_route(s, t, d) {
        Err(why) => TableRoute {
            number: why.number(),
            delivered: 0,
            tried: 0,
        },
        Ok(route) => TableRoute {
            number: 0,
            delivered: route.set,
            tried: route.tried as u64,
        },
    }
}

#[unsafe(no_mangle)]
pub extern "C" fn hub_wanted(s: &[u8], t: &[u8], d: &[u8]) -> Wanted
    ensures { WantedGives s.now t.now d.now (by_number result.number result.wanted) }
{
    match hub::wanted(s, t, d) {
        Err(why) => Wanted {
            number: why.number(),
            wanted: false,
        },
        Ok(yes) => Wanted {
            number: 0,
            wanted: yes,
        },
    }
}
