// The calls of the worked run.
use jobs::refusal::Refusal;
use master::row::Row;
use planner::run::Call;
use worked_run::PRICES;

pub fn price(job: u32, place: u32, amount: u32) -> Call {
    Call::Price { job, place, amount }
}

pub fn judge(places: &[u8], cost: u32) -> Result<Call, Refusal> {
    let row = Row::new(places)?;
    Ok(Call::Judge { row, cost })
}

pub fn calls(granted: u16) -> Result<[Call; 11], Refusal> {
    let [a, b, c, d, e, f] = PRICES.map(|(job, place, amount)| price(job, place, amount));
    Ok([
        a,
        b,
        c,
        d,
        e,
        f,
        Call::Grant { amount: granted },
        Call::Propose,
        judge(&[0, 0, 0], 250)?,
        Call::Propose,
        judge(&[0, 1, 0], 270)?,
    ])
}
