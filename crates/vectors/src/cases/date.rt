// `date TIMEHEX FORMATHEX ROOM`: a time's conversion by a format.
use crate::cases::conv;
use crate::fields::Case;
use crate::frame;

pub(crate) fn answer(rt: &impl Print, case: Case<'_>, lent: &mut [u8]) {
    let [time, format, _, _] = case.bytes;
    let framed = frame::framed(lent, case.number(3));
    let converted = dates::convert_date(time, format, frame::room(framed));
    conv::show(rt, converted, 0, framed);
}
