// The values that a description is read to, as lines.
use col_base::Transport;
use startup_config::{
    AnonTable, Conf, DomainSet, FilterTable, InputConf, OutputConf, Rule, StageConf, StageWork,
    Test,
};
use std::alloc::{AllocError, Global};
use std::fmt::Write;

fn put_input(text: &mut String, input: &InputConf) -> Result<(), AllocError> {
    let spec = &input.spec;
    let transport = spec.transport;
    let stop_after = input.stop_after;
    let name = spec.name.as_str();
    let place = spec.place.as_str();
    writeln!(
        text,
        "  input {name} {transport:?} {place}: stop after {stop_after}"
    )?;
    if transport == Transport::Udp {
        let life = input.life;
        let idle = input.idle;
        writeln!(text, "    {life:?}, idle {idle}")?;
    }
    Ok(())
}

fn put_rule(text: &mut String, rule: &Rule) -> Result<(), AllocError> {
    let pen = rule.pen;
    let id = rule.id;
    let keep = rule.keep;
    write!(text, "    rule {pen} {id}, keep {keep}: ")?;
    match &rule.test {
        Test::Present => writeln!(text, "present"),
        Test::Equal(value) => writeln!(text, "equal {value}"),
        Test::Between(low, high) => writeln!(text, "between {low} {high}"),
        Test::Prefix(prefix) => {
            let octets = prefix.octets.as_slice();
            let bits = prefix.bits;
            writeln!(text, "prefix {octets:?} {bits}")
        }
    }
}

fn put_filter(text: &mut String, name: &str, table: &FilterTable) -> Result<(), AllocError> {
    let keep = table.default_keep;
    writeln!(text, "  filter {name}: else keep {keep}")?;
    for rule in table.rules.as_slice() {
        put_rule(text, rule)?;
    }
    Ok(())
}

fn put_anonymiser(text: &mut String, name: &str, table: &AnonTable) -> Result<(), AllocError> {
    let cut4 = table.cut4;
    let cut6 = table.cut6;
    let fields = table.fields.as_slice();
    writeln!(text, "  anonymiser {name}: cut {cut4} {cut6}, {fields:?}")?;
    for row in table.rows.as_slice() {
        let from = row.from.octets.as_slice();
        let bits = row.from.bits;
        let to = row.to.as_slice();
        writeln!(text, "    row {from:?} {bits}, {to:?}")?;
    }
    Ok(())
}

fn put_stage(text: &mut String, stage: &StageConf) -> Result<(), AllocError> {
    match &stage.work {
        StageWork::Filter(table) => put_filter(text, stage.name.as_str(), table),
        StageWork::Anonymise(table) => put_anonymiser(text, stage.name.as_str(), table),
    }
}

fn put_output(text: &mut String, output: &OutputConf) -> Result<(), AllocError> {
    let name = output.name.as_str();
    let path = output.path.as_str();
    let kind = output.kind;
    write!(text, "  output {name} {path} {kind:?}: ")?;
    match &output.domains {
        DomainSet::All => writeln!(text, "all domains"),
        DomainSet::Only(ranges) => {
            let ranges = ranges.as_slice();
            writeln!(text, "only {ranges:?}")
        }
        DomainSet::Except(ranges) => {
            let ranges = ranges.as_slice();
            writeln!(text, "except {ranges:?}")
        }
    }
}

fn put_top(text: &mut String, conf: &Conf) -> Result<(), AllocError> {
    let ring = conf.ring;
    let slots = conf.slots;
    writeln!(text, "  ring {ring}, slots {slots}")?;
    if let Some(path) = &conf.order_log {
        let path = path.as_str();
        writeln!(text, "  order log {path}")?;
    }
    for path in conf.elements.as_slice() {
        let path = path.as_str();
        writeln!(text, "  elements {path}")?;
    }
    Ok(())
}

/// The values of a description, each table in a line or more, behind two spaces.
pub fn values_text(alloc: Global, conf: &Conf) -> Result<String, AllocError> {
    let mut text = String::new(alloc);
    put_top(&mut text, conf)?;
    for input in conf.inputs.as_slice() {
        put_input(&mut text, input)?;
    }
    for stage in conf.stages.as_slice() {
        put_stage(&mut text, stage)?;
    }
    for output in conf.outputs.as_slice() {
        put_output(&mut text, output)?;
    }
    Ok(text)
}
